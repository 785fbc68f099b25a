// The executables that are attached for mapped files, with their call frame information and that of their debug files.
ghost use Rattle.std.specs.Prelude.{◌≡◌, ◌++◌, ◌∷◌, [], IfOk, OnOk, filter, find, map};
ghost use Rattle.std.specs.Option.{option_and_then, option_map};
ghost use Rattle.address_space.specs.Source.{is_named};
ghost use Rattle.elf_view.specs.ViewWords.{image_of};
ghost use Rattle.memory_replies.specs.Memory.{attached_view, is_attached};
ghost use Rattle.unwind.specs.Words.{executable_view};
ghost use Rattle.frame_replies.specs.ProcessWords.{described_view, if_attached};
ghost use Rattle.frame_replies.specs.Processes.{sound_image, with_code};

use crate::described::Described;
use address_space::Attached;
use call_frames::CallFrames;
use elf_view::{Elf, Want};
use std::alloc::{AllocError, Global};
use unwind::UnwoundExecutable;

/// The debug file of that path, if its headers have no fault.
fn debug_file<'a>(path: &[u8], debugs: &[Attached<'a>]) -> Option<Elf<'a>>
    ensures { option_map image_of result ≡ option_and_then sound_image (find (is_named path.now) (map attached_view debugs.now)) }
{
    for debug in debugs {
        if debug.path == path {
            return Elf::read(debug.image, Want::Exec).ok();
        }
    }
    None
}

/// Reads the call frame information of an executable and of its debug file. `None` is one whose headers have a fault; the error is that
/// there is no memory.
fn read_described<'a>(
    alloc: Global,
    executable: Attached<'a>,
    debugs: &[Attached<'a>],
) -> Result<Option<Described<'a>>, AllocError>
    ensures { IfOk result (λ found. option_map described_view found ≡ if_attached (map attached_view debugs.now) (attached_view executable.entry)) }
{
    let Ok(elf) = Elf::read(executable.image, Want::Exec) else {
        return Ok(None);
    };
    let debug = debug_file(executable.path, debugs);
    let frames = CallFrames::read(alloc, &elf, debug)?;
    Ok(Some(Described {
        path: executable.path,
        elf,
        debug,
        frames,
    }))
}

/// Puts an executable after the others, unless its headers have a fault. The error is that there is no memory.
fn add<'a>(
    alloc: Global,
    list: &mut Vec<Described<'a>>,
    executable: Attached<'a>,
    debugs: &[Attached<'a>],
) -> Result<(), AllocError>
    ensures { OnOk result (map described_view list.new.items
        ≡ map described_view list.old.items ++ map (with_code (map attached_view debugs.now)) (filter is_attached (attached_view executable.entry ∷ []))) }
{
    if let Some(image) = read_described(alloc, executable, debugs)? {
        list.push(image)?;
    }
    Ok(())
}

/// Those of the executables whose headers have no fault, in their order, each with the debug file of its path. The error is that there is
/// no memory.
pub(crate) fn all_described<'a>(
    alloc: Global,
    attached: &[Attached<'a>],
    debugs: &[Attached<'a>],
) -> Result<Vec<Described<'a>>, AllocError>
    ensures { IfOk result (λ list. map described_view list.items
        ≡ map (with_code (map attached_view debugs.now)) (filter is_attached (map attached_view attached.now))) }
{
    let mut list = Vec::new(alloc);
    for executable in attached {
        add(alloc, &mut list, *executable, debugs)?;
    }
    Ok(list)
}

/// The same, lent. The error is that there is no memory for the list of them.
pub(crate) fn lent<'e, 'a>(
    alloc: Global,
    list: &'e [Described<'a>],
) -> Result<Vec<UnwoundExecutable<'e, 'a>>, AllocError>
    ensures { IfOk result (λ v. map executable_view v.items ≡ map described_view list.now) }
{
    let mut all = Vec::with_capacity(alloc, list.len())?;
    for image in list {
        all.push(UnwoundExecutable {
            path: image.path,
            elf: image.elf,
            debug: image.debug,
            frames: &image.frames,
        })?;
    }
    Ok(all)
}
