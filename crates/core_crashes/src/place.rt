// The place where a core crashed, in the build of the file that is mapped there.
ghost use Rattle.std.specs.Prelude.{◌≡◌, ◌==◌, IfOk, find, map};
ghost use Rattle.std.specs.Option.{option_map};
ghost use Rattle.std.specs.Str.{bytes_eq};
ghost use Rattle.build_replies.specs.Mapped.{build_view};
ghost use Rattle.frame_replies.specs.FrameValues.{frames_view};
ghost use Rattle.image_replies.specs.CoreWords.{core_bytes};
ghost use Rattle.core_crashes.specs.Crashes as spec;
ghost use Rattle.core_crashes.specs.Views.{id_kept, place_said};

use crate::frames::frame_facts;
use crate::notes::{file_at, vdso_of};
use build_replies::BuildAnswer;
use crash_signatures::place_of;
use frame_replies::FramesAnswer;
use group_tables::CrashPlace;
use image_replies::CoreImage;
use std::alloc::{AllocError, Global};

// The build ID that the core has for the file of this path.
fn build_id_of<'s>(builds: &'s [BuildAnswer<'_>], path: &[u8]) -> Option<&'s [u8]>
    ensures { option_map (λ id. id.now) result ≡ spec.id_of (map build_view builds.now) path.now }
{
    for row in builds {
        if row.front.name == path {
            return row.front.id();
        }
    }
    None
}

fn owned_id(alloc: Global, id: Option<&[u8]>) -> Result<Option<Vec<u8>>, AllocError>
    ensures { IfOk result (λ kept. id_kept kept ≡ option_map (λ id. id.now) id.entry) }
{
    match id {
        Some(id) => Ok(Some(id.to_vec(alloc)?)),
        None => Ok(None),
    }
}

// The place of the innermost frame, if one is known.
pub(crate) fn place_in<'a>(
    alloc: Global,
    core: &CoreImage<'a>,
    frames: &FramesAnswer<'a>,
    builds: &[BuildAnswer<'_>],
) -> Result<Option<CrashPlace>, AllocError>
    ensures { IfOk result (λ place. option_map place_said place ≡ spec.place_in (core_bytes core.now) (frames_view frames.now) (map build_view builds.now)) }
{
    let Some(frame) = frames.frames.first() else {
        return Ok(None);
    };
    let vdso = vdso_of(core);
    let facts = frame_facts(core, &vdso, frame);
    let Some(text) = place_of(&facts) else {
        return Ok(None);
    };
    let Some(file) = facts.file else {
        return Ok(None);
    };
    let build = owned_id(alloc, build_id_of(builds, file.path))?;
    Ok(Some(CrashPlace { build, text }))
}
