// The content of an address of a core.
ghost use Rattle.std.specs.Prelude.{◌≡◌, ◌+◌, ◌<◌, ◌^◌, ℕ, List, IfOk, find, length, map};
ghost use Rattle.std.specs.Option.{option_map};
ghost use Rattle.script_streams.specs.Replies.{PrintsReply, PrintsText, printing};
ghost use Rattle.address_space.specs.PieceWords.{mapping_view};
ghost use Rattle.address_space.specs.Source.{ExecutableView, mappings_of, source_at};
ghost use Rattle.address_space.specs.SourceWords.{spot_view};
ghost use Rattle.address_space.specs.SpaceWords.{core_of, space_of};
ghost use Rattle.address_space.specs.StretchWords.{shown_in};
ghost use Rattle.address_space.specs.Whole.{IsFrontOf, space_in};
ghost use Rattle.image_replies.specs.CoreWords.{core_bytes};
ghost use Rattle.thread_regs.specs.ThreadWords.{threads_left};
ghost use Rattle.memory_replies.specs.Answers.{AnswersWith};
ghost use Rattle.memory_replies.specs.Memory.{attached_view, memory_of};
ghost use Rattle.memory_replies.specs.NamedWords.{place_view};
ghost use Rattle.memory_replies.specs.Naming.{named_files};
ghost use Rattle.memory_replies.specs.NamingWords.{named_file};
ghost use Rattle.memory_replies.specs.Words.{hex_word, spot_words};
ghost use Rattle.memory_replies.specs.At as spec;

use crate::attached::{space_and_images, space_with};
use crate::laws::a_sound_front_names_the_files;
use crate::named::{Location, place_of, print_place};
use crate::named_executable::NamedExecutable;
use crate::naming::{function_of, named_executables};
use crate::outcome::Outcome;
use crate::stacks::{has_address, print_stacks, threads_of};
use crate::words::print_hex_word;
use address_space::{AddressSpace, Attached, FileSpot, Mapping, StretchKind};
use elf_view::a_sound_front_is_enough;
use image_replies::{CoreImage, flag_letters};
use script_streams::{Output, Reply, print_no, print_ok};
use std::alloc::{AllocError, Global};
use thread_regs::ThreadList;

/// The first mapping that has an address.
pub fn mapping_at<'a>(space: &AddressSpace<'a>, address: u64) -> Option<Mapping<'a>>
    ensures { option_map mapping_view result ≡ find (spec.has_address address) (mappings_of (space_of space.now)) }
{
    for mapping in space.mappings() {
        if has_address(&mapping, address) {
            return Some(mapping);
        }
    }
    None
}

/// The word for the place of a byte, or for why there is no byte.
fn source_word(kind: StretchKind<'_>) -> &'static [u8]
    ensures { (image : List ℕ) (n : ℕ) → result.now ≡ spec.source_word (shown_in image n kind.entry) }
{
    match kind {
        StretchKind::Core { .. } => b"core",
        StretchKind::FromFile(_) => b"file",
        StretchKind::NotDumped(_) => b"notdumped",
        StretchKind::Cut => b"cut",
        StretchKind::Unmapped => b"unmapped",
    }
}

/// The same of the byte of an address. The core may be the first bytes alone of an image of `size` bytes.
fn source_of(space: &AddressSpace<'_>, size: u64, address: u64) -> &'static [u8]
    ensures { (image : List ℕ) → IsFrontOf (core_of space.now) size image → result.now ≡ spec.source_word (source_at (space_in image (space_of space.now)) address) }
{
    match space.stretches(size, address, 1).next() {
        Some(stretch) => source_word(stretch.kind),
        None => b"unmapped",
    }
}

/// Prints the address after the last of a mapping, which may be 2^64, and a space.
#[tactic(auto, unfolding(crate::specs::Words::hex_word))]
fn print_past<O: Output>(reply: &mut Reply<'_, O>, mapping: Mapping<'_>)
    ensures { PrintsText (printing O.Output reply.old reply.new) (hex_word (mapping.entry.start + mapping.entry.memsz)) }
{
    reply.print_hexadecimal(u128::from(mapping.start) + u128::from(mapping.memsz));
    reply.print(b" ");
}

/// Prints an address, its mapping, and the place of its byte.
fn print_mapping<O: Output>(
    reply: &mut Reply<'_, O>,
    address: u64,
    mapping: Mapping<'_>,
    source: &'static [u8],
)
    ensures { PrintsText (printing O.Output reply.old reply.new) (spec.at_line address (mapping_view mapping.entry) source.entry.now) }
{
    reply.print(b"at ");
    print_hex_word(reply, address);
    print_hex_word(reply, mapping.start);
    print_past(reply, mapping);
    reply.print(&flag_letters(mapping.flags));
    reply.print(b" ");
    reply.print(source);
    reply.print(b"\n");
}

/// Prints a place in a mapped file, or that the address has no such place.
#[tactic(auto, unfolding(crate::specs::Words::spot_words))]
fn print_spot<O: Output>(reply: &mut Reply<'_, O>, spot: Option<FileSpot<'_>>)
    ensures { PrintsText (printing O.Output reply.old reply.new) (spot_words (option_map spot_view spot.entry)) }
{
    match spot {
        Some(spot) => {
            print_hex_word(reply, spot.offset);
            reply.print_text(spot.name);
        }
        None => reply.print(b"- -"),
    }
}

/// Prints the line of a place in a mapped file.
#[tactic(auto, unfolding(crate::specs::At::file_line))]
fn print_file<O: Output>(reply: &mut Reply<'_, O>, spot: Option<FileSpot<'_>>)
    ensures { PrintsText (printing O.Output reply.old reply.new) (spec.file_line (option_map spot_view spot.entry)) }
{
    reply.print(b"file ");
    print_spot(reply, spot);
    reply.print(b"\n");
}

/// Prints the line of a function.
#[tactic(auto, unfolding(crate::specs::At::function_line))]
fn print_function<O: Output>(reply: &mut Reply<'_, O>, place: Option<Location<'_>>)
    ensures { PrintsText (printing O.Output reply.old reply.new) (spec.function_line (option_map place_view place.entry)) }
{
    reply.print(b"function ");
    print_place(reply, place);
    reply.print(b"\n");
}

/// Prints the content of an address of a mapping, with that function.
fn print_address<O: Output>(
    reply: &mut Reply<'_, O>,
    space: &AddressSpace<'_>,
    size: u64,
    place: Option<Location<'_>>,
    threads: ThreadList<'_>,
    mapping: Mapping<'_>,
    address: u64,
)
    requires { length (threads_left threads) < 2 ^ 128 }
    ensures { (image : List ℕ) → IsFrontOf (core_of space.now) size image → PrintsText (printing O.Output reply.old reply.new)
        (spec.at_lines (space_in image (space_of space.now)) (option_map place_view place.entry) (threads_left threads.entry) address (mapping_view mapping.entry)) }
{
    let source = source_of(space, size, address);
    print_mapping(reply, address, mapping, source);
    print_file(reply, space.spot(address));
    print_function(reply, place);
    print_stacks(reply, &mapping, threads);
}

/// Prints the content of an address of a core, in that memory, with that function. Returns the outcome.
fn print_located<O: Output>(
    reply: &mut Reply<'_, O>,
    core: &CoreImage<'_>,
    size: u64,
    space: &AddressSpace<'_>,
    place: Option<Location<'_>>,
    address: u64,
) -> Outcome
    requires { core_of space.now ≡ core_bytes core.now }
    ensures { (image : List ℕ) (executables : List ExecutableView) → IsFrontOf (core_bytes core.now) size image
        → space_of space.now ≡ memory_of (core_bytes core.now) executables
        → PrintsReply (printing O.Output reply.old reply.new)
        (AnswersWith result (spec.located_answer image executables (option_map place_view place.entry) address)) }
{
    a_sound_front_is_enough();
    a_sound_front_names_the_files();
    let Some(mapping) = mapping_at(space, address) else {
        print_no(reply, b"Unmapped");
        return Outcome::Refused;
    };
    let threads = threads_of(core);
    print_address(reply, space, size, place, threads, mapping, address);
    print_ok(reply);
    Outcome::Done
}

/// Prints the content of an address of a core: `at ADDR START PAST RWX SOURCE`, the first PT_LOAD that has it and the place of its byte;
/// `file OFFSET NAME`, the place in the file that was mapped there; `function WHERE`, where WHERE is `NAME+h` by the symbols of the
/// executable that is attached for that file, or `?`; and `stack T` for each thread whose stack pointer is in the same PT_LOAD. An address
/// that no PT_LOAD has is answered by `no Unmapped`. Returns the outcome.
///
/// The core may be only the first bytes of an image of `size` bytes. The
/// reply is the same as for every image that starts with these bytes.
pub fn print_at<O: Output>(
    alloc: Global,
    reply: &mut Reply<'_, O>,
    core: &CoreImage<'_>,
    size: u64,
    attached: &[Attached<'_>],
    address: u64,
) -> Outcome
    ensures { (image : List ℕ) → IsFrontOf (core_bytes core.now) size image → PrintsReply (printing O.Output reply.old reply.new)
        (AnswersWith result (spec.at_answer image (map attached_view attached.now) address)) }
{
    a_sound_front_names_the_files();
    let Ok((space, images)) = space_and_images(alloc, core, attached) else {
        print_no(reply, b"OutOfMemory");
        return Outcome::OutOfMemory;
    };
    let place = place_of(&space, &images, address, Some(address));
    print_located(reply, core, size, &space, place, address)
}

/// The memory of a core with its executables, and these with their debug files. The error is that there is no memory.
fn space_and_named<'a>(
    alloc: Global,
    core: &CoreImage<'a>,
    attached: &[Attached<'a>],
    debugs: &[Attached<'a>],
) -> Result<(AddressSpace<'a>, Vec<NamedExecutable<'a>>), AllocError>
    ensures space { IfOk result (λ m. space_of m.0 ≡ memory_of (core_bytes core.now) (map attached_view attached.now)) }
    ensures core { IfOk result (λ m. core_of m.0 ≡ core_bytes core.now) }
    ensures named { IfOk result (λ m. map named_file m.1.items ≡ named_files (map attached_view attached.now) (map attached_view debugs.now)) }
{
    let space = space_with(alloc, core, attached)?;
    let named = named_executables(alloc, attached, debugs)?;
    Ok((space, named))
}

/// Like `print_at`, but if the executable has no symbol for a function,
/// the debug file of the same path names the function, if there is one.
pub fn print_at_with_debugs<O: Output>(
    alloc: Global,
    reply: &mut Reply<'_, O>,
    core: &CoreImage<'_>,
    size: u64,
    attached: &[Attached<'_>],
    debugs: &[Attached<'_>],
    address: u64,
) -> Outcome
    ensures { (image : List ℕ) → IsFrontOf (core_bytes core.now) size image → PrintsReply (printing O.Output reply.old reply.new)
        (AnswersWith result (spec.at_with_debugs image (map attached_view attached.now) (map attached_view debugs.now) address)) }
{
    a_sound_front_names_the_files();
    let Ok((space, named)) = space_and_named(alloc, core, attached, debugs) else {
        print_no(reply, b"OutOfMemory");
        return Outcome::OutOfMemory;
    };
    let place = function_of(&space, &named, address, Some(address));
    print_located(reply, core, size, &space, place, address)
}
