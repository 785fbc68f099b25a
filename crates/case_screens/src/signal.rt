// The signal that ended a process.
ghost use Rattle.std.specs.Prelude.{◌≡◌, option_map};
ghost use Rattle.core_notes.specs.Descriptor.{si_addr, si_pid, si_uid};
ghost use Rattle.core_notes.specs.DescriptorWords.{siginfo_bytes};
ghost use Rattle.script_streams.specs.Replies.{PrintsText, printing};
ghost use Rattle.thread_regs.specs.SignalNames.{name_of_signal};
ghost use Rattle.case_screens.specs.CodeWords.{code_words};
ghost use Rattle.case_screens.specs.Codes.{sent_code};
ghost use Rattle.case_screens.specs.Core.{desc_in, notes_read};
ghost use Rattle.case_screens.specs.Signal as spec;

use crate::codes::{SignalCode, code_of_signal, sent_code};
use crate::texts::print_refusal;
use crate::told_notes::signal_of;
use case_tables::print_signal;
use core_notes::SigInfo;
use image_replies::{CoreFault, CoreImage};
use script_streams::{Output, Reply};
use thread_regs::signal_name;

// Prints the signal that a process met; if the core does not have it, the one that the case keeps, and why.
pub(crate) fn print_signal_line<O: Output>(
    reply: &mut Reply<'_, O>,
    signal: u32,
    core: &Result<CoreImage<'_>, CoreFault>,
)
    ensures { PrintsText (printing O.Output reply.old reply.new) (spec.signal_line signal (desc_in 0x53494749 (notes_read core.now))) }
{
    reply.print(b"signal    ");
    print_met_or_kept(reply, signal, core);
    reply.print(b"\n");
}

fn print_met_or_kept<O: Output>(
    reply: &mut Reply<'_, O>,
    signal: u32,
    core: &Result<CoreImage<'_>, CoreFault>,
)
    ensures { PrintsText (printing O.Output reply.old reply.new) (spec.met_or_kept signal (desc_in 0x53494749 (notes_read core.now))) }
{
    match signal_of(core) {
        Ok(met) => print_cause(reply, &met),
        Err(reason) => {
            print_signal(reply, signal);
            reply.print(b", ");
            print_refusal(reply, &reason);
        }
    }
}

// Prints a signal's name and code, and the address that was met or the sender.
fn print_cause<O: Output>(reply: &mut Reply<'_, O>, met: &SigInfo<'_>)
    ensures { PrintsText (printing O.Output reply.old reply.new) (spec.cause_text (siginfo_bytes met.now)) }
{
    print_name(reply, met.si_signo());
    reply.print(b", ");
    print_code(reply, code_of_signal(met.si_signo(), met.si_code()), met);
}

// Prints a signal by its name, or by its number if it has no name.
fn print_name<O: Output>(reply: &mut Reply<'_, O>, signo: i32)
    ensures { PrintsText (printing O.Output reply.old reply.new) (spec.signal_word (name_of_signal signo) signo) }
{
    match signal_name(signo) {
        Some(name) => {
            reply.print(b"SIG");
            reply.print(name.as_bytes());
        }
        None => reply.print_signed(i64::from(signo)),
    }
}

fn print_code<O: Output>(reply: &mut Reply<'_, O>, code: Option<SignalCode>, met: &SigInfo<'_>)
    ensures { PrintsText (printing O.Output reply.old reply.new) (spec.code_text (option_map code_words code) (siginfo_bytes met.now)) }
{
    match code {
        Some(code) => {
            reply.print(code.name);
            reply.print(b": ");
            reply.print(code.before);
            print_address(reply, met.si_addr());
            reply.print(code.after);
        }
        None => {
            print_sent(reply, met.si_code());
            print_sender(reply, met.si_pid(), met.si_uid());
            print_met(reply, met.si_addr());
        }
    }
}

fn print_address<O: Output>(reply: &mut Reply<'_, O>, address: Option<u64>)
    ensures { PrintsText (printing O.Output reply.old reply.new) (spec.address_text address) }
{
    if let Some(address) = address {
        reply.print_hexadecimal(u128::from(address));
    }
}

// Prints a code that any signal may have, or its number.
fn print_sent<O: Output>(reply: &mut Reply<'_, O>, code: i32)
    ensures { PrintsText (printing O.Output reply.old reply.new) (spec.sent_word (sent_code code) code) }
{
    match sent_code(code) {
        Some(name) => reply.print(name),
        None => {
            reply.print(b"code ");
            reply.print_signed(i64::from(code));
        }
    }
}

// Prints who sent it, if both the process and the user are there.
fn print_sender<O: Output>(reply: &mut Reply<'_, O>, process: Option<i32>, user: Option<u32>)
    ensures { PrintsText (printing O.Output reply.old reply.new) (spec.sender_text process user) }
{
    let (Some(process), Some(user)) = (process, user) else {
        return;
    };
    reply.print(b", sent by process ");
    reply.print_signed(i64::from(process));
    reply.print(b" of user ");
    reply.print_decimal(u128::from(user));
}

// Prints the address that was met, if it is there.
fn print_met<O: Output>(reply: &mut Reply<'_, O>, address: Option<u64>)
    ensures { PrintsText (printing O.Output reply.old reply.new) (spec.met_text address) }
{
    if let Some(address) = address {
        reply.print(b", address ");
        reply.print_hexadecimal(u128::from(address));
    }
}
