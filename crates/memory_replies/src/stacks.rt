// The threads whose stacks a mapping has.
ghost use Rattle.std.specs.Prelude.{◌≡◌, ◌<◌, ◌^◌, length};
ghost use Rattle.script_streams.specs.Replies.{PrintsText, printing};
ghost use Rattle.address_space.specs.PieceWords.{mapping_view};
ghost use Rattle.core_notes.specs.Typed.{all_descs};
ghost use Rattle.elf_view.specs.ViewWords.{image_of, notes_of, want_of};
ghost use Rattle.elf_view.specs.declared.faults.Want.TheVariants.{Core};
ghost use Rattle.image_replies.specs.CoreWords.{core_bytes};
ghost use Rattle.thread_regs.specs.ThreadWords.{thread_bytes, threads_left};
ghost use Rattle.memory_replies.specs.At as spec;

use address_space::Mapping;
use elf_view::Elf;
use image_replies::CoreImage;
use script_streams::{Output, Reply};
use thread_regs::{Reg, Thread, ThreadList, threads};

/// Whether an address is one of a mapping's.
pub fn has_address(mapping: &Mapping<'_>, address: u64) -> bool
    ensures { result ≡ spec.has_address address (mapping_view mapping.now) }
{
    mapping.start <= address
        && u128::from(address) < u128::from(mapping.start) + u128::from(mapping.memsz)
}

/// The notes of an image are so few that a number of 128 bits counts them. It does nothing.
#[tactic(auto, using(crate::proofs::CountLemmas::notes_few))]
fn notes_are_few(elf: &Elf<'_>)
    ensures { length (notes_of (want_of elf.now) (image_of elf.now)) < 2 ^ 128 }
{
    let _headers = elf.segments();
    let _length = elf.image().len();
}

/// The threads of a core, which are so few that a number of 128 bits counts them.
#[tactic(auto, using(crate::proofs::CountLemmas::descs_few))]
pub fn threads_of<'a>(core: &CoreImage<'a>) -> ThreadList<'a>
    ensures threads { threads_left result ≡ all_descs 1 (notes_of Core (core_bytes core.now)) }
    ensures few { length (threads_left result) < 2 ^ 128 }
{
    notes_are_few(&core.elf());
    threads(core.notes())
}

/// Prints that the stack pointer of a thread is in a mapping, if it is.
#[tactic(auto, unfolding(crate::specs::At::stack_line))]
fn print_stack<O: Output>(
    reply: &mut Reply<'_, O>,
    mapping: &Mapping<'_>,
    index: u128,
    thread: &Thread<'_>,
)
    ensures { PrintsText (printing O.Output reply.old reply.new) (spec.stack_line (mapping_view mapping.now) index (thread_bytes thread.now)) }
{
    let sp = thread.register(Reg::of_word(2));
    if has_address(mapping, sp) {
        reply.print(b"stack ");
        reply.print_decimal(index);
        reply.print(b"\n");
    }
}

/// The same of each thread, the first being number 0.
pub(crate) fn print_stacks<O: Output>(
    reply: &mut Reply<'_, O>,
    mapping: &Mapping<'_>,
    threads: ThreadList<'_>,
)
    requires { length (threads_left threads) < 2 ^ 128 }
    ensures { PrintsText (printing O.Output reply.old reply.new) (spec.stack_lines (mapping_view mapping.now) (threads_left threads.entry)) }
{
    let mut rest = threads;
    let mut index: u128 = 0;
    while let Some(thread) = rest.next() {
        print_stack(reply, mapping, index, &thread);
        index += 1;
    }
}
