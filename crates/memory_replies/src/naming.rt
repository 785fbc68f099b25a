// The executables that name frames, each with its debug file.
ghost use Rattle.std.specs.Prelude.{◌≡◌, ◌++◌, ◌∷◌, [], IfOk, OnOk, find, map};
ghost use Rattle.std.specs.Option.{option_map};
ghost use Rattle.address_space.specs.Source.{is_named};
ghost use Rattle.address_space.specs.SourceWords.{spot_view};
ghost use Rattle.address_space.specs.SpaceWords.{attached_view, space_of};
ghost use Rattle.elf_view.specs.ViewWords.{image_of};
ghost use Rattle.symbols.specs.SymbolWords.{symbol_view};
ghost use Rattle.memory_replies.specs.Naming as spec;
ghost use Rattle.memory_replies.specs.NamedWords.{place_view};
ghost use Rattle.memory_replies.specs.NamingWords.{debug_view, named_file};

use crate::debug_file::DebugFile;
use crate::functions::Functions;
use crate::named::Location;
use crate::named_executable::NamedExecutable;
use address_space::{AddressSpace, Attached, FileSpot};
use elf_view::{Elf, Want};
use std::alloc::{AllocError, Global};
use symbols::{Symbol, vaddr_of_offset};

impl<'a> NamedExecutable<'a> {
    /// The path of the mapped file for which it is used.
    pub fn path(&self) -> &'a [u8]
        ensures { result.now ≡ (named_file self.now).file.path }
    {
        self.executable.path
    }

    /// Its headers, which have no fault.
    pub fn elf(&self) -> &Elf<'a>
        ensures { image_of result.now ≡ (named_file self.now).file.image }
    {
        &self.functions.elf
    }

    /// All bytes of its debug file, if it has one.
    pub fn debug_image(&self) -> Option<&'a [u8]>
        ensures { option_map (λ d. d.now) result ≡ spec.debug_image (named_file self.now) }
    {
        match &self.debug {
            Some(debug) => Some(debug.file.image),
            None => None,
        }
    }

    /// The function at an address: the executable's, or else the debug file's.
    fn symbol_at(&self, address: u64) -> Option<Symbol<'a>>
        ensures { option_map symbol_view result ≡ spec.symbol_at (named_file self.now) address }
    {
        if let Some(symbol) = self.functions.at(address) {
            return Some(symbol);
        }
        match &self.debug {
            Some(debug) => debug.at(address),
            None => None,
        }
    }

    /// The function at an offset, if a pc is `behind` bytes after that offset.
    fn function_in(&self, offset: u64, behind: u64) -> Option<Location<'a>>
        ensures { option_map place_view result ≡ spec.function_in behind offset (named_file self.now) }
    {
        let address = vaddr_of_offset(&self.functions.elf, offset)?;
        let symbol = self.symbol_at(address)?;
        let reached = u128::from(address) + u128::from(behind);
        Some(Location {
            name: symbol.name,
            distance: reached.saturating_sub(u128::from(symbol.value)),
        })
    }
}

/// The debug file of that path. The error is that there is no memory.
fn debug_file<'a>(
    alloc: Global,
    path: &[u8],
    debugs: &[Attached<'a>],
) -> Result<Option<DebugFile<'a>>, AllocError>
    ensures { IfOk result (λ d. option_map debug_view d ≡ find (is_named path.now) (map attached_view debugs.now)) }
{
    for debug in debugs {
        if debug.path == path {
            return Ok(Some(DebugFile::read(alloc, *debug)?));
        }
    }
    Ok(None)
}

/// Puts an executable with its debug file after the others, unless its headers have a fault. The error is that there is no memory.
fn add<'a>(
    alloc: Global,
    named: &mut Vec<NamedExecutable<'a>>,
    executable: Attached<'a>,
    debugs: &[Attached<'a>],
) -> Result<(), AllocError>
    ensures { OnOk result (map named_file named.new.items ≡ map named_file named.old.items ++ spec.named_files (attached_view executable.entry ∷ []) (map attached_view debugs.now)) }
{
    let Ok(elf) = Elf::read(executable.image, Want::Exec) else {
        return Ok(());
    };
    let functions = Functions::read(alloc, elf)?;
    let debug = debug_file(alloc, executable.path, debugs)?;
    named.push(NamedExecutable {
        executable,
        functions,
        debug,
    })?;
    Ok(())
}

/// Those of the executables whose headers have no fault, in their order, each with the debug file of its path. The error is that there is
/// no memory.
pub fn named_executables<'a>(
    alloc: Global,
    executables: &[Attached<'a>],
    debugs: &[Attached<'a>],
) -> Result<Vec<NamedExecutable<'a>>, AllocError>
    ensures { IfOk result (λ named. map named_file named.items ≡ spec.named_files (map attached_view executables.now) (map attached_view debugs.now)) }
{
    let mut named = Vec::new(alloc);
    for executable in executables {
        add(alloc, &mut named, *executable, debugs)?;
    }
    Ok(named)
}

/// The first executable of that path.
pub fn of_path<'n, 'a>(
    named: &'n [NamedExecutable<'a>],
    path: &[u8],
) -> Option<&'n NamedExecutable<'a>>
    ensures { option_map (λ n. named_file n.now) result ≡ find (spec.has_path path.now) (map named_file named.now) }
{
    for executable in named {
        if executable.executable.path == path {
            return Some(executable);
        }
    }
    None
}

/// The function at a place of a mapped file.
fn function_at<'a>(
    named: &[NamedExecutable<'a>],
    spot: FileSpot<'_>,
    behind: u64,
) -> Option<Location<'a>>
    ensures { option_map place_view result ≡ spec.function_at_spot (map named_file named.now) behind (spot_view spot.entry) }
{
    let executable = of_path(named, spot.name)?;
    executable.function_in(spot.offset, behind)
}

/// The function at the address that is looked up for a pc, if one is: by the symbols of the executable that is used for the mapped file;
/// if none of them has the address, by those of its debug file.
#[tactic(auto, unfolding(crate::specs::Naming::function_of))]
pub fn function_of<'a>(
    space: &AddressSpace<'_>,
    named: &[NamedExecutable<'a>],
    pc: u64,
    address: Option<u64>,
) -> Option<Location<'a>>
    ensures { option_map place_view result ≡ spec.function_of (space_of space.now).files (map named_file named.now) pc address }
{
    let address = address?;
    let spot = space.spot(address)?;
    function_at(named, spot, pc.saturating_sub(address))
}
