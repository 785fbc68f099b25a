// The source line of an address.
ghost use Rattle.std.specs.Prelude.{◌≡◌};
ghost use Rattle.std.specs.Option.{option_map};
ghost use Rattle.script_streams.specs.Replies.{PrintsReply, PrintsText, no_reply, printing};
ghost use Rattle.elf_view.specs.ViewWords.{image_of};
ghost use Rattle.image_replies.specs.Reasons.{indexed};
ghost use Rattle.memory_replies.specs.Answers.{AnswersWith, memory_reply};
ghost use Rattle.memory_replies.specs.declared.outcome.Outcome.TheVariants.{OutOfMemory};
ghost use Rattle.frame_replies.specs.Line as spec;
ghost use Rattle.frame_replies.specs.Line.{source_at};
ghost use Rattle.frame_replies.specs.LineWords.{source_result};
ghost use Rattle.frame_replies.specs.Source.{sources_for};
ghost use Rattle.frame_replies.specs.LineSourceWords.{sections_view};

use crate::line_sections::LineSections;
use crate::source::{NoTables, line_source};
use crate::source_line::SourceLine;
use elf_view::{Elf, SectionFault, Want};
use image_replies::print_elf_fault;
use line_tables::{LineFault, NoLine};
use memory_replies::Outcome;
use script_streams::{Output, Reply, print_no, print_ok};
use std::alloc::Global;

/// The name of the field of the file header for which section headers are refused.
fn section_fault(elf: &Elf<'_>) -> Option<&'static [u8]>
    ensures { option_map (λ name. name.now) result ≡ spec.section_fault (image_of elf.now) }
{
    match elf.section_count() {
        Ok(_) => None,
        Err(SectionFault::EShentsize) => Some(b"e_shentsize"),
        Err(SectionFault::EShoff) => Some(b"e_shoff"),
        Err(SectionFault::NoSection) => None,
    }
}

/// Prints the fault of a line table: `no FIELD INDEX`.
fn print_line_fault<O: Output>(reply: &mut Reply<'_, O>, fault: LineFault)
    ensures { PrintsText (printing O.Output reply.old reply.new) (no_reply (spec.line_reason fault)) }
{
    reply.print(b"no ");
    reply.print(fault.field.name().as_bytes());
    reply.print(b" ");
    reply.print_decimal(u128::from(fault.index));
    reply.print(b"\n");
}

/// Prints the line that was found, or why there is none. Says what became of it.
fn print_found<O: Output>(reply: &mut Reply<'_, O>, found: &Result<SourceLine, NoLine>) -> Outcome
    ensures { PrintsReply (printing O.Output reply.old reply.new) (AnswersWith result (spec.found_answer (source_result found.now))) }
{
    match found {
        Ok(source) => {
            reply.print_text(&source.file);
            reply.print(b" ");
            reply.print_decimal(u128::from(source.line));
            reply.print(b"\n");
            print_ok(reply);
            Outcome::Done
        }
        Err(NoLine::Uncovered) => {
            print_no(reply, b"NoLine");
            Outcome::Refused
        }
        Err(NoLine::Faulty(fault)) => {
            print_line_fault(reply, *fault);
            Outcome::Refused
        }
    }
}

/// Prints that there is no memory.
fn print_no_memory<O: Output>(reply: &mut Reply<'_, O>) -> Outcome
    ensures states { PrintsText (printing O.Output reply.old reply.new) memory_reply }
    ensures outcome { result ≡ OutOfMemory }
{
    print_no(reply, b"OutOfMemory");
    Outcome::OutOfMemory
}

/// Prints the line of an address by the line tables in these sections. Says what became of it.
fn print_in<O: Output>(
    alloc: Global,
    reply: &mut Reply<'_, O>,
    sections: &LineSections<'_>,
    address: u64,
) -> Outcome
    ensures { PrintsReply (printing O.Output reply.old reply.new) (AnswersWith result (spec.found_answer (source_at (sections_view sections.now) address))) }
{
    match sections.source_at(alloc, address) {
        Ok(found) => print_found(reply, &found),
        Err(_) => print_no_memory(reply),
    }
}

/// Prints the line of an address by the line tables of an executable. Says what became of it.
fn print_searched<O: Output>(
    alloc: Global,
    reply: &mut Reply<'_, O>,
    elf: &Elf<'_>,
    debug: Option<&[u8]>,
    address: u64,
) -> Outcome
    ensures { PrintsReply (printing O.Output reply.old reply.new)
        (AnswersWith result (spec.searched (sources_for (image_of elf.now) (option_map (λ d. d.now) debug.entry)) address)) }
{
    match line_source(alloc, elf, debug) {
        Ok(sections) => print_in(alloc, reply, &sections, address),
        Err(NoTables::OutOfMemory) => print_no_memory(reply),
        Err(reason) => {
            print_no(reply, reason.reason());
            Outcome::Refused
        }
    }
}

/// Prints the source line of an address of an executable: `FILE LINE`, the path of the file as texts are printed, and the number of the
/// line in decimal; or `no REASON`. The line tables are those of the executable, or else those of its debug file, if there is one.
/// Memory is taken for the path, and for sections that are compressed. The first of these that holds is the reason:
///
/// - `FIELD`, or `FIELD INDEX`: the first fault of the executable's headers, or else of its section headers (`e_shentsize`, `e_shoff`).
/// - `OutOfMemory`: memory was refused.
/// - `Compressed`: neither file has line tables that can be read, and those of one of the two are compressed by another method than zlib,
///   or damaged.
/// - `NoLine`: neither file has line tables, or they have no line for the address and no fault.
/// - `FIELD INDEX`: no line table without a fault has the address, and this is the field and the number of the first one with a fault.
///
/// Says what became of it.
pub fn print_line<O: Output>(
    alloc: Global,
    reply: &mut Reply<'_, O>,
    image: &[u8],
    debug: Option<&[u8]>,
    address: u64,
) -> Outcome
    ensures { PrintsReply (printing O.Output reply.old reply.new)
        (AnswersWith result (spec.line_answer image.now (option_map (λ d. d.now) debug.entry) address)) }
{
    let elf = match Elf::read(image, Want::Exec) {
        Ok(elf) => elf,
        Err(fault) => {
            print_elf_fault(reply, fault);
            return Outcome::Refused;
        }
    };
    if let Some(field) = section_fault(&elf) {
        print_no(reply, field);
        return Outcome::Refused;
    }
    print_searched(alloc, reply, &elf, debug, address)
}
