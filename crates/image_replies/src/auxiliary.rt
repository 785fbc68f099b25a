// The reply to `auxv`.
ghost use Rattle.std.specs.Prelude.{◌≡◌, is_ok};
ghost use Rattle.std.specs.List.{flat_map};
ghost use Rattle.std.specs.Option.{option_map, option_copied};
ghost use Rattle.core_notes.specs.DescriptorWords.{auxv_bytes, pairs_left};
ghost use Rattle.script_streams.specs.Replies.{PrintsText, printing, reply_of};
ghost use Rattle.image_replies.specs.Lines.{if_there};
ghost use Rattle.image_replies.specs.Auxv as spec;

use crate::core_image::CoreImage;
use crate::faults::print_core_fault;
use core_notes::{Auxv, AuxvPair, AuxvPairs};
use script_streams::{Output, Reply, print_no, print_ok};

/// Prints the auxiliary vector of the process of a core, or the first of these that holds: the core or a typed note is
/// bad, it has no NT_AUXV (`no Missing`). Returns whether it is printed; if not, the reply is `no REASON`.
pub fn print_auxv<O: Output>(reply: &mut Reply<'_, O>, image: &[u8]) -> bool
    ensures states { PrintsText (printing O.Output reply.old reply.new) (reply_of (spec.auxv_answer image.now)) }
    ensures done { result ≡ is_ok (spec.auxv_answer image.now) }
{
    match CoreImage::read(image) {
        Ok(core) => print_found(reply, core.notes().auxv()),
        Err(fault) => {
            print_core_fault(reply, fault);
            false
        }
    }
}

/// Prints an auxiliary vector, if it is there. Returns whether it is.
fn print_found<O: Output>(reply: &mut Reply<'_, O>, auxv: Option<Auxv<'_>>) -> bool
    ensures states { PrintsText (printing O.Output reply.old reply.new) (reply_of (if_there (option_map auxv_bytes auxv.entry) spec.pair_lines)) }
    ensures done { result ≡ is_ok (if_there (option_map auxv_bytes auxv.entry) spec.pair_lines) }
{
    match auxv {
        Some(auxv) => {
            print_pair_lines(reply, auxv.pairs());
            print_ok(reply);
            true
        }
        None => {
            print_no(reply, b"Missing");
            false
        }
    }
}

/// Prints a line for each pair.
fn print_pair_lines<O: Output>(reply: &mut Reply<'_, O>, pairs: AuxvPairs<'_>)
    ensures { PrintsText (printing O.Output reply.old reply.new) (flat_map spec.pair_line (pairs_left pairs.entry)) }
{
    let mut rest = pairs;
    while let Some(pair) = rest.next() {
        print_pair_line(reply, pair);
    }
}

fn print_pair_line<O: Output>(reply: &mut Reply<'_, O>, pair: AuxvPair)
    ensures { PrintsText (printing O.Output reply.old reply.new) (spec.pair_line pair) }
{
    print_type(reply, pair.kind);
    reply.print(b" ");
    reply.print_hexadecimal(u128::from(pair.value));
    reply.print(b"\n");
}

/// Prints the name of a type, or its number.
fn print_type<O: Output>(reply: &mut Reply<'_, O>, kind: u64)
    ensures { PrintsText (printing O.Output reply.old reply.new) (spec.name_or_number (spec.auxv_name kind) kind) }
{
    match auxv_name(kind) {
        Some(name) => reply.print(name.as_bytes()),
        None => reply.print_decimal(u128::from(kind)),
    }
}

/// The name of a type, without AT_.
#[tactic(auto, unfolding(crate::specs::Auxv::auxv_name))]
fn auxv_name(kind: u64) -> Option<&'static str>
    ensures { option_copied result ≡ spec.auxv_name kind }
{
    match kind {
        3 => Some("PHDR"),
        4 => Some("PHENT"),
        5 => Some("PHNUM"),
        6 => Some("PAGESZ"),
        7 => Some("BASE"),
        8 => Some("FLAGS"),
        9 => Some("ENTRY"),
        11 => Some("UID"),
        12 => Some("EUID"),
        13 => Some("GID"),
        14 => Some("EGID"),
        15 => Some("PLATFORM"),
        16 => Some("HWCAP"),
        17 => Some("CLKTCK"),
        23 => Some("SECURE"),
        25 => Some("RANDOM"),
        26 => Some("HWCAP2"),
        31 => Some("EXECFN"),
        33 => Some("SYSINFO_EHDR"),
        _ => None,
    }
}
