//! The crash of a core.
ghost use Rattle.std.specs.Prelude.{◌≡◌, IfOk, codes, map};
ghost use Rattle.std.specs.Option.{option_map};
ghost use Rattle.build_replies.specs.Mapped.{build_view};
ghost use Rattle.crash_signatures.specs.SignatureViews.{signature_said};
ghost use Rattle.frame_replies.specs.FrameValues.{frames_view};
ghost use Rattle.image_replies.specs.CoreWords.{core_bytes};
ghost use Rattle.journal_layout.specs.Case.{case_of};
ghost use Rattle.core_crashes.specs.Crashes as spec;
ghost use Rattle.core_crashes.specs.Views.{crashed_said, rows_said};

use crate::frames::{is_whole, words_of};
use crate::handled::signal_text;
use crate::place::place_in;
use crate::program::{program_by_name, program_in};
use build_replies::BuildAnswer;
use crash_signatures::{HandledSignal, Signature, signature_of, signature_of_refused};
use frame_replies::FramesAnswer;
use group_tables::{Crash, CrashedCore};
use image_replies::{CoreFault, CoreImage};
use journal_layout::Entry;
use std::alloc::{AllocError, Global};

// The signature of frames.
fn signature_in<'a>(
    alloc: Global,
    core: &CoreImage<'a>,
    frames: &FramesAnswer<'a>,
    handled: Option<u32>,
) -> Result<Signature, AllocError>
    ensures { IfOk result (λ signature. signature_said signature ≡ spec.signature_in (core_bytes core.now) (frames_view frames.now) handled) }
{
    let words = words_of(core, frames);
    let Some(number) = handled else {
        return Ok(signature_of(&words, None, is_whole(frames)));
    };
    let name = signal_text(alloc, number)?;
    let signal = HandledSignal {
        number,
        name: &name,
    };
    Ok(signature_of(&words, Some(signal), is_whole(frames)))
}

fn lent_rows<'s, 'a>(builds: Option<&'s [BuildAnswer<'a>]>) -> &'s [BuildAnswer<'a>]
    ensures { result.now ≡ rows_said builds.entry }
{
    match builds {
        Some(rows) => rows,
        None => &[],
    }
}

/// The crash of a core: by the frames of the thread that dumped, the signal of which one was being handled (`handled_signal`), and
/// the build IDs that the core has for its mapped files. The core may be the first bytes alone of the case's image.
///
/// # Errors
///
/// There is no memory.
pub fn crash_of<'a>(
    alloc: Global,
    case: &Entry,
    core: &CoreImage<'a>,
    frames: &FramesAnswer<'a>,
    handled: Option<u32>,
    builds: Option<&[BuildAnswer<'_>]>,
) -> Result<CrashedCore, AllocError>
    ensures { IfOk result (λ crash. crashed_said crash ≡ spec.crash_of (case_of case.now) (core_bytes core.now) (frames_view frames.now) handled (map build_view (rows_said builds.entry))) }
{
    let program = program_in(alloc, case.name.as_slice(), core)?;
    let signature = signature_in(alloc, core, frames, handled)?;
    let place = place_in(alloc, core, frames, lent_rows(builds))?;
    Ok(CrashedCore {
        number: case.seq,
        crash: Crash {
            program,
            signal: case.signal,
            signature,
        },
        place,
    })
}

// The name of the bad field of a core.
fn field_of(fault: CoreFault) -> &'static [u8]
    ensures { result.now ≡ spec.field_of fault }
{
    match fault {
        CoreFault::Elf(fault) => fault.field.name().as_bytes(),
        CoreFault::Note(fault) => fault.field.name().as_bytes(),
    }
}

// The crash of a core of which no frame is known, for this reason.
fn crash_by_name(alloc: Global, case: &Entry, reason: &[u8]) -> Result<CrashedCore, AllocError>
    ensures { IfOk result (λ crash. crashed_said crash ≡ spec.crash_by_name (case_of case.now) reason.now) }
{
    Ok(CrashedCore {
        number: case.seq,
        crash: Crash {
            program: program_by_name(alloc, case.name.as_slice())?,
            signal: case.signal,
            signature: signature_of_refused(reason),
        },
        place: None,
    })
}

/// The crash of a core whose headers or notes have a fault.
///
/// # Errors
///
/// There is no memory.
pub fn refused_crash(
    alloc: Global,
    case: &Entry,
    fault: CoreFault,
) -> Result<CrashedCore, AllocError>
    ensures { IfOk result (λ crash. crashed_said crash ≡ spec.crash_by_name (case_of case.now) (spec.field_of fault)) }
{
    crash_by_name(alloc, case, field_of(fault))
}

/// The crash of a core that has no thread.
///
/// # Errors
///
/// There is no memory.
pub fn crash_without_thread(alloc: Global, case: &Entry) -> Result<CrashedCore, AllocError>
    ensures { IfOk result (λ crash. crashed_said crash ≡ spec.crash_by_name (case_of case.now) (codes "NoThread")) }
{
    crash_by_name(alloc, case, b"NoThread")
}
