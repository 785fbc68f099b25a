// The verdicts on the images of an archive, and their lines.
ghost use Rattle.std.specs.Prelude.{◌≡◌};
ghost use Rattle.script_streams.specs.Replies.{PrintsText, printing};
ghost use Rattle.archive_checks.specs.Verdicts.{case_start, cut_verdict, cut_words, gone_line, verdict_line, verdict_of, verdict_words};

use core_checks::whole_length;
use elf_view::{Elf, ElfFault, Want};
use image_replies::{CoreFault, CoreImage, print_core_fault, print_elf_fault};
use journal_layout::Kind;
use script_streams::{Output, Reply, print_no};

/// The verdict on the image of a case.
#[derive(Clone, Copy)]
pub enum Verdict {
    /// Its headers and notes are sound.
    Sound,
    /// They are sound, but the core was cut.
    Cut {
        /// How many bytes it has.
        has: u64,
        /// How many bytes its program headers want.
        whole: u64,
    },
    /// The first fault of a core.
    Core(CoreFault),
    /// The first fault of an executable.
    Exec(ElfFault),
}

/// The verdict on an image: the first fault of its headers and notes, or that they are sound. For a core it also says whether it
/// was cut.
pub fn verdict_of(kind: Kind, image: &[u8]) -> Verdict
    ensures { result ≡ verdict_of kind image.now }
{
    match kind {
        Kind::Core => match CoreImage::read(image) {
            Ok(_) => cut_verdict(image.len() as u64, whole_length(image)),
            Err(fault) => Verdict::Core(fault),
        },
        Kind::Exec => match Elf::read(image, Want::Exec) {
            Ok(_) => Verdict::Sound,
            Err(fault) => Verdict::Exec(fault),
        },
    }
}

// Whether a sound core was cut: its program headers want more bytes than it has.
fn cut_verdict(has: u64, whole: Option<u64>) -> Verdict
    ensures { result ≡ cut_verdict has whole }
{
    match whole {
        Some(whole) if has < whole => Verdict::Cut { has, whole },
        _ => Verdict::Sound,
    }
}

/// Prints the verdict on the image of a case: `case N sound`, `case N sound, cut: H of W bytes`, or `case N no FIELD`.
pub fn print_verdict<O: Output>(reply: &mut Reply<'_, O>, seq: u32, verdict: Verdict)
    ensures { PrintsText (printing O.Output reply.old reply.new) (verdict_line seq verdict) }
{
    print_case(reply, seq);
    print_words(reply, verdict);
}

/// Prints that a case is not there: `case N no NoCase`.
pub fn print_gone<O: Output>(reply: &mut Reply<'_, O>, seq: u32)
    ensures { PrintsText (printing O.Output reply.old reply.new) (gone_line seq) }
{
    print_case(reply, seq);
    print_no(reply, b"NoCase");
}

fn print_case<O: Output>(reply: &mut Reply<'_, O>, seq: u32)
    ensures { PrintsText (printing O.Output reply.old reply.new) (case_start seq) }
{
    reply.print(b"case ");
    reply.print_decimal(u128::from(seq));
    reply.print(b" ");
}

fn print_words<O: Output>(reply: &mut Reply<'_, O>, verdict: Verdict)
    ensures { PrintsText (printing O.Output reply.old reply.new) (verdict_words verdict) }
{
    match verdict {
        Verdict::Sound => reply.print(b"sound\n"),
        Verdict::Cut { has, whole } => print_cut(reply, has, whole),
        Verdict::Core(fault) => print_core_fault(reply, fault),
        Verdict::Exec(fault) => print_elf_fault(reply, fault),
    }
}

fn print_cut<O: Output>(reply: &mut Reply<'_, O>, has: u64, whole: u64)
    ensures { PrintsText (printing O.Output reply.old reply.new) (cut_words has whole) }
{
    reply.print(b"sound, cut: ");
    reply.print_decimal(u128::from(has));
    reply.print(b" of ");
    reply.print_decimal(u128::from(whole));
    reply.print(b" bytes\n");
}
