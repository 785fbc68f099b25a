// Why frames end.
ghost use Rattle.std.specs.Prelude.{◌≡◌, ℕ, List};
ghost use Rattle.std.specs.Borrow.{Bor};
ghost use Rattle.std.specs.Option.{option_map};
ghost use Rattle.script_streams.specs.Replies.{PrintsText, printing};
ghost use Rattle.frame_replies.specs.FrameLines as spec;

use script_streams::{Output, Reply};
use unwind::Stop;

/// The name of a reason. It is `Faulty` for an entry of call frame information that is at fault.
pub fn stop_name(stop: Stop) -> &'static str
    ensures { result.now ≡ spec.stop_name stop }
{
    match stop {
        Stop::NoFile => "NoFile",
        Stop::NoExecutable => "NoExecutable",
        Stop::OtherBuild => "OtherBuild",
        Stop::NoAddress => "NoAddress",
        Stop::NoEntry => "NoEntry",
        Stop::Compressed => "Compressed",
        Stop::FaultyEntry(_) | Stop::FaultyRow(_) => "Faulty",
        Stop::Outermost => "Outermost",
        Stop::Expression => "Expression",
        Stop::Undefined => "Undefined",
        Stop::NotRising => "NotRising",
        Stop::Unreadable => "Unreadable",
        Stop::ZeroPc => "ZeroPc",
        Stop::Limit => "Limit",
    }
}

/// The entry of call frame information that is at fault: the name of its field, and its number in its section.
pub fn stop_fault(stop: Stop) -> Option<(&'static str, u64)>
    ensures { option_map (λ (x : Bor (List ℕ) × ℕ). (x.0.now, x.1)) result ≡ spec.stop_fault stop }
{
    match stop {
        Stop::FaultyEntry(fault) => Some((fault.field.name(), fault.index)),
        Stop::FaultyRow(fault) => Some((fault.field.name(), fault.index)),
        _ => None,
    }
}

/// Prints an entry that is at fault, if one is.
fn print_fault<O: Output>(reply: &mut Reply<'_, O>, fault: Option<(&str, u64)>)
    ensures { PrintsText (printing O.Output reply.old reply.new) (spec.fault_words (option_map (λ (x : Bor (List ℕ) × ℕ). (x.0.now, x.1)) fault.entry)) }
{
    if let Some((name, index)) = fault {
        reply.print(b" ");
        reply.print(name.as_bytes());
        reply.print(b" ");
        reply.print_decimal(u128::from(index));
    }
}

/// Prints the reason why frames end: `NAME`, or `Faulty FIELD INDEX`.
pub fn print_stop_words<O: Output>(reply: &mut Reply<'_, O>, stop: Stop)
    ensures { PrintsText (printing O.Output reply.old reply.new) (spec.stop_words stop) }
{
    reply.print(stop_name(stop).as_bytes());
    print_fault(reply, stop_fault(stop));
}

/// Prints why frames end: `stop NAME`, or `stop Faulty FIELD INDEX`.
pub fn print_stop<O: Output>(reply: &mut Reply<'_, O>, stop: Stop)
    ensures { PrintsText (printing O.Output reply.old reply.new) (spec.stop_line stop) }
{
    reply.print(b"stop ");
    print_stop_words(reply, stop);
    reply.print(b"\n");
}
