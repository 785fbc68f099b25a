// By which files a frame's function is named.
ghost use Rattle.std.specs.Prelude.{◌≡◌};
ghost use Rattle.std.specs.Option.{option_map};
ghost use Rattle.script_streams.specs.Replies.{PrintsText, printing};
ghost use Rattle.address_space.specs.SpaceWords.{space_of};
ghost use Rattle.memory_replies.specs.FunctionWords.{places_by};
ghost use Rattle.memory_replies.specs.NamedWords.{place_view};
ghost use Rattle.memory_replies.specs.Places as spec;

use crate::named::{Location, place_of, print_place};
use crate::named_executable::NamedExecutable;
use crate::naming::function_of;
use crate::symbolized_executables::SymbolizedExecutables;
use address_space::AddressSpace;
use script_streams::{Output, Reply};

/// The files by which functions are named.
#[derive(Drop)]
pub(crate) enum FunctionNames<'a> {
    /// The executables alone.
    OfExecutables(SymbolizedExecutables<'a>),
    /// The executables, and for an address that none of their functions has, their debug files.
    WithDebugFiles(Vec<NamedExecutable<'a>>),
}

impl<'a> FunctionNames<'a> {
    /// The function at the address that is looked up for a pc, if one is.
    fn place(&self, space: &AddressSpace<'_>, pc: u64, address: Option<u64>) -> Option<Location<'a>>
        ensures { option_map place_view result ≡ places_by (space_of space.now).files self.now pc address }
    {
        match self {
            FunctionNames::OfExecutables(images) => place_of(space, images, pc, address),
            FunctionNames::WithDebugFiles(named) => function_of(space, named, pc, address),
        }
    }
}

/// Prints the place of a pc: `NAME+h`, where `h` is its distance from the value of the function at the address that is looked up
/// for it; or `?`, if no address is looked up or its function is not known.
pub(crate) fn print_where<O: Output>(
    reply: &mut Reply<'_, O>,
    space: &AddressSpace<'_>,
    names: &FunctionNames<'_>,
    pc: u64,
    address: Option<u64>,
)
    ensures { PrintsText (printing O.Output reply.old reply.new)
        (spec.place_words (places_by (space_of space.now).files names.now pc address)) }
{
    print_place(reply, names.place(space, pc, address));
}
