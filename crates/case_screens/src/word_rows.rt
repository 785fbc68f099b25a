// Rows of words.
ghost use Rattle.std.specs.Prelude.{◌≡◌, ◌<◌, ◌^◌, length, map};
ghost use Rattle.std.specs.Option.{option_map};
ghost use Rattle.address_space.specs.PieceWords.{mapping_view};
ghost use Rattle.address_space.specs.SpaceWords.{space_of};
ghost use Rattle.core_notes.specs.FileWords.{file_view};
ghost use Rattle.image_replies.specs.CoreWords.{core_bytes};
ghost use Rattle.memory_replies.specs.NamedWords.{place_view};
ghost use Rattle.memory_replies.specs.NamingWords.{named_file};
ghost use Rattle.script_streams.specs.Replies.{PrintsText, printing};
ghost use Rattle.thread_regs.specs.ThreadWords.{threads_left};
ghost use Rattle.case_screens.specs.WordRows as spec;

use crate::{file_place, map_at};
use address_space::{AddressSpace, Mapping};
use core_notes::FileMap;
use image_replies::CoreImage;
use memory_replies::{
    Location, NamedExecutable, function_of, has_address, mapping_at, print_hex_word, print_place,
    threads_of,
};
use script_streams::{Output, Reply};
use thread_regs::{Reg, ThreadList};

/// A memory, and the files that name its addresses.
#[derive(Clone, Copy)]
pub struct WordMemory<'m, 'a> {
    /// The core.
    pub core: &'m CoreImage<'a>,
    /// Its memory.
    pub space: &'m AddressSpace<'a>,
    /// The executables that are attached, with their functions.
    pub named: &'m [NamedExecutable<'a>],
}

// The file that is mapped at an address, by NT_FILE.
fn file_at<'a>(core: &CoreImage<'a>, address: u64) -> Option<FileMap<'a>>
    ensures { option_map file_view result ≡ spec.file_at (core_bytes core.now) address }
{
    let files = core.notes().files()?;
    map_at(files.maps(), address)
}

// The number of the first thread whose stack pointer is in a mapping.
fn stack_in(mapping: &Mapping<'_>, threads: ThreadList<'_>) -> Option<u128>
    requires { length (threads_left threads) < 2 ^ 128 }
    ensures { result ≡ spec.stack_in (mapping_view mapping.now) 0 (threads_left threads.entry) }
{
    let mut rest = threads;
    let mut index: u128 = 0;
    while let Some(thread) = rest.next() {
        if has_address(mapping, thread.register(Reg::of_word(2))) {
            return Some(index);
        }
        index += 1;
    }
    None
}

// Prints that an address belongs to a thread's stack, or that it is mapped.
fn print_mapping<O: Output>(reply: &mut Reply<'_, O>, core: &CoreImage<'_>, mapping: &Mapping<'_>)
    ensures { PrintsText (printing O.Output reply.old reply.new) (spec.mapping_text (core_bytes core.now) (mapping_view mapping.now)) }
{
    match stack_in(mapping, threads_of(core)) {
        Some(thread) => {
            reply.print(b"  stack of thread ");
            reply.print_decimal(thread);
        }
        None => reply.print(b"  mapped"),
    }
}

// Prints the file of an address that has no function; or its mapping; or nothing, if it has no mapping.
fn print_unnamed<O: Output>(reply: &mut Reply<'_, O>, memory: WordMemory<'_, '_>, address: u64)
    ensures { PrintsText (printing O.Output reply.old reply.new) (spec.unnamed_text (core_bytes memory.entry.core.now) (space_of memory.entry.space.now) address) }
{
    match (
        file_at(memory.core, address),
        mapping_at(memory.space, address),
    ) {
        (Some(map), _) => {
            reply.print(b"  ");
            reply.print_text(&file_place(&map, address).text);
        }
        (None, Some(mapping)) => print_mapping(reply, memory.core, &mapping),
        (None, None) => {}
    }
}

// Prints the target at an address, after two spaces; nothing, if no mapping has it.
fn print_pointer<O: Output>(
    reply: &mut Reply<'_, O>,
    memory: WordMemory<'_, '_>,
    place: Option<Location<'_>>,
    address: u64,
)
    ensures { PrintsText (printing O.Output reply.old reply.new) (spec.pointer_text (core_bytes memory.entry.core.now) (space_of memory.entry.space.now) (option_map place_view place.entry) address) }
{
    match place {
        Some(place) => {
            reply.print(b"  ");
            print_place(reply, Some(place));
        }
        None => print_unnamed(reply, memory, address),
    }
}

// Prints the target at an address, by the executables that are attached.
fn print_target<O: Output>(reply: &mut Reply<'_, O>, memory: WordMemory<'_, '_>, address: u64)
    ensures { PrintsText (printing O.Output reply.old reply.new)
        (spec.target_text (core_bytes memory.entry.core.now) (space_of memory.entry.space.now) (map named_file memory.entry.named.now) address) }
{
    let place = function_of(memory.space, memory.named, address, Some(address));
    print_pointer(reply, memory, place, address);
}

// Prints the eight bytes of a word as its sixteen digits.
fn print_digits<O: Output>(reply: &mut Reply<'_, O>, word: u64)
    ensures { PrintsText (printing O.Output reply.old reply.new) (spec.digits_text word) }
{
    reply.print_hex(&word.to_be_bytes());
}

// Prints a word and the target that it points to; or a minus, if the memory does not have it.
fn print_known<O: Output>(reply: &mut Reply<'_, O>, memory: WordMemory<'_, '_>, word: Option<u64>)
    ensures { PrintsText (printing O.Output reply.old reply.new)
        (spec.known_text (core_bytes memory.entry.core.now) (space_of memory.entry.space.now) (map named_file memory.entry.named.now) word) }
{
    match word {
        Some(word) => {
            print_digits(reply, word);
            print_target(reply, memory, word);
        }
        None => reply.print(b"-"),
    }
}

/// Prints a row: the address of a word, the word by its sixteen digits, and the target that it points to: the function, or the place in the
/// mapped file, or the thread whose stack pointer is in the same mapping, or that it is mapped. A word that the memory does not have is `-`.
pub fn print_word<O: Output>(
    reply: &mut Reply<'_, O>,
    memory: WordMemory<'_, '_>,
    address: u64,
    word: Option<u64>,
)
    ensures is_row { PrintsText (printing O.Output reply.old reply.new)
        (spec.word_row (core_bytes memory.entry.core.now) (space_of memory.entry.space.now) (map named_file memory.entry.named.now) address word) }
{
    print_hex_word(reply, address);
    reply.print(b" ");
    print_known(reply, memory, word);
    reply.print(b"\n");
}

/// Prints a row: the name of a register, its value, and the target that it points to, as in the row of a word.
pub fn print_register<O: Output>(
    reply: &mut Reply<'_, O>,
    memory: WordMemory<'_, '_>,
    name: &[u8],
    value: u64,
)
    ensures is_row { PrintsText (printing O.Output reply.old reply.new)
        (spec.register_row (core_bytes memory.entry.core.now) (space_of memory.entry.space.now) (map named_file memory.entry.named.now) name.now value) }
{
    reply.print(name);
    reply.print(b" ");
    reply.print_hexadecimal(u128::from(value));
    print_target(reply, memory, value);
    reply.print(b"\n");
}
