// A core's memory, with the executables that are attached for its mapped files.
ghost use Rattle.std.specs.Prelude.{◌≡◌, ◌↔◌, ◌++◌, ◌∷◌, [], IfOk, IsTrue, OnOk, map};
ghost use Rattle.address_space.specs.Disjoint.{AreDisjoint, AreFilesDisjoint};
ghost use Rattle.address_space.specs.SpaceWords.{core_of, space_of};
ghost use Rattle.address_space.specs.TableWords.{has_file_table, has_table};
ghost use Rattle.elf_view.specs.Header.{segments_of};
ghost use Rattle.image_replies.specs.CoreWords.{core_bytes};
ghost use Rattle.memory_replies.specs.Attaching.{with_attached};
ghost use Rattle.memory_replies.specs.Places.{known_among};
ghost use Rattle.memory_replies.specs.Memory as spec;
ghost use Rattle.memory_replies.specs.NamedList.{named_in};
ghost use Rattle.memory_replies.specs.NamedWords.{named_view};

use crate::symbolized_executables::SymbolizedExecutables;
use address_space::{AddressSpace, Attached};
use elf_view::{Elf, Want};
use image_replies::CoreImage;
use std::alloc::{AllocError, Global};

/// Attaches an executable if it passes the checks of its headers. The only error is that there is no memory.
fn attach<'a>(space: &mut AddressSpace<'a>, executable: Attached<'a>) -> Result<(), AllocError>
    ensures attached { OnOk result (space_of space.new ≡ with_attached (space_of space.old) (spec.attached_view executable.entry)) }
    ensures core { core_of space.new ≡ core_of space.old }
{
    let Ok(elf) = Elf::read(executable.image, Want::Exec) else {
        return Ok(());
    };
    space.attach(executable.path, elf)
}

/// The memory of a core, in which no executable is attached. It
/// has tables for many searches, if there is memory for them.
pub(crate) fn plain_space<'a>(alloc: Global, core: &CoreImage<'a>) -> AddressSpace<'a>
    ensures { space_of result ≡ spec.memory_of (core_bytes core.now) [] }
{
    match indexed_space(alloc, core) {
        Ok(space) => space,
        Err(_) => AddressSpace::new(alloc, &core.elf(), core.notes().files()),
    }
}

/// The same, in which segments and mapped files are looked up in tables. The error is that there is no memory for them.
fn indexed_space<'a>(alloc: Global, core: &CoreImage<'a>) -> Result<AddressSpace<'a>, AllocError>
    ensures memory { IfOk result (λ space. space_of space ≡ spec.memory_of (core_bytes core.now) []) }
    ensures core { IfOk result (λ space. core_of space ≡ core_bytes core.now) }
    ensures table { IfOk result (λ space. IsTrue (has_table space) ↔ AreDisjoint (segments_of (core_bytes core.now))) }
    ensures files { IfOk result (λ space. IsTrue (has_file_table space) ↔ AreFilesDisjoint (spec.memory_of (core_bytes core.now) []).files) }
{
    AddressSpace::indexed(alloc, &core.elf(), core.notes().files())
}

/// The memory of a core, with those of the executables that pass the checks of their headers. The error is that there is
/// no memory.
pub fn space_with<'a>(
    alloc: Global,
    core: &CoreImage<'a>,
    attached: &[Attached<'a>],
) -> Result<AddressSpace<'a>, AllocError>
    ensures memory { IfOk result (λ space. space_of space
        ≡ spec.memory_of (core_bytes core.now) (map spec.attached_view attached.now)) }
    ensures core { IfOk result (λ space. core_of space ≡ core_bytes core.now) }
{
    let mut space = indexed_space(alloc, core)?;
    for executable in attached {
        attach(&mut space, *executable)?;
    }
    Ok(space)
}

/// Attaches an executable if it passes the checks of its headers, and adds it to those that name frames if its symbols have
/// no fault. The only error is that there is no memory.
fn attach_named<'a>(
    alloc: Global,
    space: &mut AddressSpace<'a>,
    images: &mut SymbolizedExecutables<'a>,
    executable: Attached<'a>,
) -> Result<(), AllocError>
    ensures space { OnOk result (space_of space.new
        ≡ with_attached (space_of space.old) (spec.attached_view executable.entry)) }
    ensures images { OnOk result (map named_view images.new.list.items
        ≡ map named_view images.old.list.items ++ known_among (spec.attached_view executable.entry ∷ [])) }
    ensures core { core_of space.new ≡ core_of space.old }
{
    match Elf::read(executable.image, Want::Exec) {
        Ok(elf) => {
            space.attach(executable.path, elf)?;
            images.add(alloc, executable, elf)
        }
        Err(_) => Ok(()),
    }
}

/// The same memory as `space_with`, and the executables by whose symbols frames are named. Headers are checked once. The
/// error is that there is no memory.
pub fn space_and_images<'a>(
    alloc: Global,
    core: &CoreImage<'a>,
    attached: &[Attached<'a>],
) -> Result<(AddressSpace<'a>, SymbolizedExecutables<'a>), AllocError>
    ensures space { IfOk result (λ m. space_of m.0
        ≡ spec.memory_of (core_bytes core.now) (map spec.attached_view attached.now)) }
    ensures images { IfOk result (λ m. named_in m.1 ≡ known_among (map spec.attached_view attached.now)) }
    ensures core { IfOk result (λ m. core_of m.0 ≡ core_bytes core.now) }
{
    let mut space = indexed_space(alloc, core)?;
    let mut images = SymbolizedExecutables::new(alloc);
    for executable in attached {
        attach_named(alloc, &mut space, &mut images, *executable)?;
    }
    Ok((space, images))
}
