// The replies to `threads` and `regs`.
ghost use Rattle.std.specs.Prelude.{◌≡◌, ◌<◌, ◌^◌, length, Ok, is_ok};
ghost use Rattle.std.specs.Option.{option_map};
ghost use Rattle.core_notes.specs.Descriptor.{pr_reg};
ghost use Rattle.core_notes.specs.Typed.{all_descs};
ghost use Rattle.elf_view.specs.ViewWords.{notes_of};
ghost use Rattle.elf_view.specs.declared.faults.Want.TheVariants.{Core};
ghost use Rattle.image_replies.specs.CoreWords.{core_bytes};
ghost use Rattle.thread_regs.specs.ThreadWords.{thread_bytes, threads_left};
ghost use Rattle.script_streams.specs.Replies.{PrintsText, printing, reply_of};
ghost use Rattle.image_replies.specs.Threads as spec;

use crate::core_image::CoreImage;
use crate::faults::print_core_fault;
use crate::note_lines::notes_are_few;
use crate::words::print_number;
use script_streams::{Output, Reply, print_no, print_ok};
use thread_regs::{Reg, Thread, ThreadList, threads};

/// Prints a line for each thread of a core, or the first fault of the core and its typed notes. Returns whether they are printed;
/// if not, the reply is `no REASON`.
pub fn print_threads<O: Output>(reply: &mut Reply<'_, O>, image: &[u8]) -> bool
    ensures states { PrintsText (printing O.Output reply.old reply.new) (reply_of (spec.threads_answer image.now)) }
    ensures done { result ≡ is_ok (spec.threads_answer image.now) }
{
    match CoreImage::read(image) {
        Ok(core) => {
            print_thread_list(reply, threads_of(&core));
            true
        }
        Err(fault) => {
            print_core_fault(reply, fault);
            false
        }
    }
}

/// The threads of a core, which are so few that a number of 128 bits counts them.
#[tactic(auto, using(crate::proofs::CountLemmas::descs_few))]
fn threads_of<'a>(core: &CoreImage<'a>) -> ThreadList<'a>
    ensures threads { threads_left result ≡ all_descs 1 (notes_of Core (core_bytes core.now)) }
    ensures few { length (threads_left result) < 2 ^ 128 }
{
    notes_are_few(&core.elf());
    threads(core.notes())
}

/// Prints the threads, and `ok`.
fn print_thread_list<O: Output>(reply: &mut Reply<'_, O>, threads: ThreadList<'_>)
    requires { length (threads_left threads) < 2 ^ 128 }
    ensures { PrintsText (printing O.Output reply.old reply.new)
        (reply_of (Ok (spec.thread_lines (threads_left threads.entry)))) }
{
    print_thread_lines(reply, threads);
    print_ok(reply);
}

/// Prints a line for each thread, the first being number 0.
fn print_thread_lines<O: Output>(reply: &mut Reply<'_, O>, threads: ThreadList<'_>)
    requires { length (threads_left threads) < 2 ^ 128 }
    ensures { PrintsText (printing O.Output reply.old reply.new) (spec.thread_lines (threads_left threads.entry)) }
{
    let mut rest = threads;
    let mut index: u128 = 0;
    while let Some(thread) = rest.next() {
        print_thread_line(reply, index, &thread);
        index += 1;
    }
}

fn print_thread_line<O: Output>(reply: &mut Reply<'_, O>, index: u128, thread: &Thread<'_>)
    ensures { PrintsText (printing O.Output reply.old reply.new)
        (spec.thread_line index (thread_bytes thread.now)) }
{
    print_number(reply, index);
    reply.print_signed(i64::from(thread.tid()));
    reply.print(b" ");
    reply.print_signed(i64::from(thread.signal()));
    reply.print(b" ");
    reply.print_hexadecimal(u128::from(word_of(thread, 0)));
    reply.print(b"\n");
}

/// Prints the registers of a thread of a core, or the first of these that holds: the core or a typed note is bad, there
/// are fewer threads (`no NoThread`). Returns whether they are printed; if not, the reply is `no REASON`.
pub fn print_regs<O: Output>(reply: &mut Reply<'_, O>, image: &[u8], thread: u64) -> bool
    ensures states { PrintsText (printing O.Output reply.old reply.new) (reply_of (spec.regs_answer image.now thread)) }
    ensures done { result ≡ is_ok (spec.regs_answer image.now thread) }
{
    match CoreImage::read(image) {
        Ok(core) => print_registers_of(reply, threads_of(&core).thread(thread)),
        Err(fault) => {
            print_core_fault(reply, fault);
            false
        }
    }
}

/// Prints the registers of a thread, if it is there. Returns whether it is.
fn print_registers_of<O: Output>(reply: &mut Reply<'_, O>, thread: Option<Thread<'_>>) -> bool
    ensures states { PrintsText (printing O.Output reply.old reply.new) (reply_of (spec.registers_of (option_map thread_bytes thread.entry))) }
    ensures done { result ≡ is_ok (spec.registers_of (option_map thread_bytes thread.entry)) }
{
    match thread {
        Some(thread) => {
            print_register_lines(reply, &thread);
            print_ok(reply);
            true
        }
        None => {
            print_no(reply, b"NoThread");
            false
        }
    }
}

/// Prints a line for each word of a thread's registers.
fn print_register_lines<O: Output>(reply: &mut Reply<'_, O>, thread: &Thread<'_>)
    ensures { PrintsText (printing O.Output reply.old reply.new) (spec.register_lines (thread_bytes thread.now)) }
{
    for word in 0..32 {
        print_register_line(reply, thread, word);
    }
}

fn print_register_line<O: Output>(reply: &mut Reply<'_, O>, thread: &Thread<'_>, word: usize)
    requires { word < 32 }
    ensures { PrintsText (printing O.Output reply.old reply.new)
        (spec.register_line (thread_bytes thread.now) word) }
{
    reply.print(register_name(word).as_bytes());
    reply.print(b" ");
    reply.print_hexadecimal(u128::from(word_of(thread, word)));
    reply.print(b"\n");
}

/// The name in the psABI of the register that a word of a thread's state holds.
fn register_name(word: usize) -> &'static str
    requires { word < 32 }
    ensures { result.now ≡ spec.register_name word }
{
    Reg::of_word(word).name()
}

/// A word of a thread's registers.
fn word_of(thread: &Thread<'_>, word: usize) -> u64
    requires { word < 32 }
    ensures { result ≡ pr_reg (thread_bytes thread.now) word }
{
    thread.register(Reg::of_word(word))
}
