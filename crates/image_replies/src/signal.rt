// The reply to `signal`.
ghost use Rattle.std.specs.Prelude.{◌≡◌, is_ok};
ghost use Rattle.std.specs.Option.{option_map};
ghost use Rattle.core_notes.specs.Descriptor.{si_pid, si_uid, si_addr};
ghost use Rattle.core_notes.specs.DescriptorWords.{siginfo_bytes};
ghost use Rattle.thread_regs.specs.SignalNames.{name_of_signal};
ghost use Rattle.script_streams.specs.Replies.{PrintsText, printing, reply_of};
ghost use Rattle.image_replies.specs.Lines.{if_there};
ghost use Rattle.image_replies.specs.Signal as spec;

use crate::core_image::CoreImage;
use crate::faults::print_core_fault;
use crate::words::print_labelled;
use core_notes::SigInfo;
use script_streams::{Output, Reply, print_no, print_ok};
use thread_regs::signal_name;

/// Prints the signal that the process of a core met, or the first of these that holds: the core or a typed note is bad,
/// it has no NT_SIGINFO (`no Missing`). Returns whether it is printed; if not, the reply is `no REASON`.
pub fn print_signal<O: Output>(reply: &mut Reply<'_, O>, image: &[u8]) -> bool
    ensures states { PrintsText (printing O.Output reply.old reply.new) (reply_of (spec.signal_answer image.now)) }
    ensures done { result ≡ is_ok (spec.signal_answer image.now) }
{
    match CoreImage::read(image) {
        Ok(core) => print_found(reply, core.notes().siginfo()),
        Err(fault) => {
            print_core_fault(reply, fault);
            false
        }
    }
}

/// Prints a signal, if it is there. Returns whether it is.
fn print_found<O: Output>(reply: &mut Reply<'_, O>, signal: Option<SigInfo<'_>>) -> bool
    ensures states { PrintsText (printing O.Output reply.old reply.new) (reply_of (if_there (option_map siginfo_bytes signal.entry) spec.signal_lines)) }
    ensures done { result ≡ is_ok (if_there (option_map siginfo_bytes signal.entry) spec.signal_lines) }
{
    match signal {
        Some(signal) => {
            print_signal_lines(reply, &signal);
            print_ok(reply);
            true
        }
        None => {
            print_no(reply, b"Missing");
            false
        }
    }
}

fn print_signal_lines<O: Output>(reply: &mut Reply<'_, O>, signal: &SigInfo<'_>)
    ensures { PrintsText (printing O.Output reply.old reply.new) (spec.signal_lines (siginfo_bytes signal.now)) }
{
    print_cause(reply, signal);
    print_sender(reply, signal);
    print_met_address(reply, signal);
}

fn print_cause<O: Output>(reply: &mut Reply<'_, O>, signal: &SigInfo<'_>)
    ensures { PrintsText (printing O.Output reply.old reply.new) (spec.cause_line (siginfo_bytes signal.now)) }
{
    print_labelled(reply, b"signo ", signal.si_signo());
    reply.print(b" ");
    print_signal_name(reply, signal.si_signo());
    print_labelled(reply, b" errno ", signal.si_errno());
    print_labelled(reply, b" code ", signal.si_code());
    reply.print(b"\n");
}

fn print_signal_name<O: Output>(reply: &mut Reply<'_, O>, signal: i32)
    ensures { PrintsText (printing O.Output reply.old reply.new) (spec.name_or_dash (name_of_signal signal)) }
{
    match signal_name(signal) {
        Some(name) => reply.print(name.as_bytes()),
        None => reply.print(b"-"),
    }
}

/// Prints the sender, if both its process and its user are there.
fn print_sender<O: Output>(reply: &mut Reply<'_, O>, signal: &SigInfo<'_>)
    ensures { PrintsText (printing O.Output reply.old reply.new)
        (spec.sender_line (si_pid (siginfo_bytes signal.now)) (si_uid (siginfo_bytes signal.now))) }
{
    let (Some(process), Some(user)) = (signal.si_pid(), signal.si_uid()) else {
        return;
    };
    print_labelled(reply, b"pid ", process);
    reply.print(b" uid ");
    reply.print_decimal(u128::from(user));
    reply.print(b"\n");
}

/// Prints the address at which the signal arose, if it is there.
fn print_met_address<O: Output>(reply: &mut Reply<'_, O>, signal: &SigInfo<'_>)
    ensures { PrintsText (printing O.Output reply.old reply.new)
        (spec.address_line (si_addr (siginfo_bytes signal.now))) }
{
    if let Some(address) = signal.si_addr() {
        reply.print(b"addr ");
        reply.print_hexadecimal(u128::from(address));
        reply.print(b"\n");
    }
}
