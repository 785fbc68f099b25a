// The program of a core.
ghost use Rattle.std.specs.Prelude.{◌≡◌, IfOk};
ghost use Rattle.std.specs.Option.{option_map};
ghost use Rattle.crash_signatures.specs.ProgramViews.{program_said};
ghost use Rattle.image_replies.specs.CoreWords.{core_bytes};
ghost use Rattle.core_crashes.specs.Crashes as spec;

use crate::notes::{auxiliary_value, file_at};
use crash_signatures::{Program, ProgramFacts, program_of};
use image_replies::CoreImage;
use std::alloc::{AllocError, Global};

// AT_ENTRY: the address at which the program begins.
const AT_ENTRY: u64 = 9;

// The path of the file that is mapped where the program begins.
fn entry_path<'a>(core: &CoreImage<'a>) -> Option<&'a [u8]>
    ensures { option_map (λ path. path.now) result ≡ spec.entry_path (core_bytes core.now) }
{
    let file = file_at(core, auxiliary_value(core, AT_ENTRY))?;
    Some(file.path)
}

// The name that the process has in NT_PRPSINFO.
fn process_name<'a>(core: &CoreImage<'a>) -> Option<&'a [u8]>
    ensures { option_map (λ name. name.now) result ≡ spec.process_name (core_bytes core.now) }
{
    let process = core.notes().psinfo()?;
    Some(process.pr_fname())
}

fn owned(alloc: Global, program: Program<'_>) -> Result<Vec<u8>, AllocError>
    ensures { IfOk result (λ name. name.items ≡ program_said program.entry) }
{
    match program {
        Program::Known(name) => name.to_vec(alloc),
        Program::ByCase(text) => text.as_slice().to_vec(alloc),
    }
}

// The program of a core, whose case has this name.
pub(crate) fn program_in(
    alloc: Global,
    name: &[u8],
    core: &CoreImage<'_>,
) -> Result<Vec<u8>, AllocError>
    ensures { IfOk result (λ program. program.items ≡ spec.program_in name.now (core_bytes core.now)) }
{
    let name = name.to_vec(alloc)?;
    let facts = ProgramFacts {
        entry: entry_path(core),
        process: process_name(core),
        template: None,
        case_name: &name,
    };
    owned(alloc, program_of(&facts))
}

// The program by the name of a case alone.
pub(crate) fn program_by_name(alloc: Global, name: &[u8]) -> Result<Vec<u8>, AllocError>
    ensures { IfOk result (λ program. program.items ≡ spec.program_by_name name.now) }
{
    let facts = ProgramFacts {
        entry: None,
        process: None,
        template: None,
        case_name: name,
    };
    owned(alloc, program_of(&facts))
}
