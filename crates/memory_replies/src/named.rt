// In which function a pc is.
ghost use Rattle.std.specs.Prelude.{◌≡◌, map};
ghost use Rattle.std.specs.Option.{option_map};
ghost use Rattle.script_streams.specs.Replies.{PrintsText, printing};
ghost use Rattle.address_space.specs.SourceWords.{spot_view};
ghost use Rattle.address_space.specs.SpaceWords.{space_of};
ghost use Rattle.memory_replies.specs.Places as spec;
ghost use Rattle.memory_replies.specs.NamedList.{named_in};
ghost use Rattle.memory_replies.specs.NamedWords.{named_view, place_view};

use crate::symbolized_executable::SymbolizedExecutable;
use crate::symbolized_executables::SymbolizedExecutables;
use address_space::{AddressSpace, FileSpot};
use script_streams::{Output, Reply};
use symbols::vaddr_of_offset;

/// A place in a function.
#[derive(Clone, Copy)]
pub struct Location<'a> {
    /// The function's name.
    pub name: &'a [u8],
    /// How many bytes it is after the function's value.
    pub distance: u128,
}

/// The function at an offset of an executable, if a pc is `behind` bytes after that offset.
fn place_in<'a>(image: &SymbolizedExecutable<'a>, offset: u64, behind: u64) -> Option<Location<'a>>
    ensures { option_map place_view result ≡ spec.place_in behind offset (named_view image.now) }
{
    let address = vaddr_of_offset(&image.elf, offset)?;
    let symbol = image.symbols.lookup(address)?;
    let reached = u128::from(address) + u128::from(behind);
    Some(Location {
        name: symbol.name,
        distance: reached.saturating_sub(u128::from(symbol.value)),
    })
}

/// The function at a place of a mapped file.
fn place_at<'a>(
    images: &SymbolizedExecutables<'a>,
    spot: FileSpot<'_>,
    behind: u64,
) -> Option<Location<'a>>
    ensures { option_map place_view result
        ≡ spec.place_at_spot (named_in images.now) behind (spot_view spot.entry) }
{
    let image = images.named(spot.name)?;
    place_in(image, spot.offset, behind)
}

/// The function at the address that is looked up for a pc, if one is.
#[tactic(auto, unfolding(crate::specs::Places::place_of))]
pub fn place_of<'a>(
    space: &AddressSpace<'_>,
    images: &SymbolizedExecutables<'a>,
    pc: u64,
    address: Option<u64>,
) -> Option<Location<'a>>
    ensures { option_map place_view result
        ≡ spec.place_of (space_of space.now).files (named_in images.now) pc address }
{
    let address = address?;
    let spot = space.spot(address)?;
    place_at(images, spot, pc.saturating_sub(address))
}

/// Prints a place in a function, `NAME+h`, or `?` if it is not known.
pub fn print_place<O: Output>(reply: &mut Reply<'_, O>, place: Option<Location<'_>>)
    ensures { PrintsText (printing O.Output reply.old reply.new)
        (spec.place_words (option_map place_view place.entry)) }
{
    match place {
        Some(place) => {
            reply.print_text(place.name);
            reply.print(b"+");
            reply.print_hexadecimal(place.distance);
        }
        None => reply.print(b"?"),
    }
}
