// The file that a failure names.
use crate::asked::Paths;
use crate::endings::{Ending, Named};
use archive_files::{Failure, FileWord, Refusal, holder_of};
use disk_model::FileFault;
use std::fs;
use std::fs::File;
use std::rt::Files;

// The end of a task that failed, with what is known of the file that the failure names.
pub(crate) fn ending_of<R: AllocGlobal + Files<File = File>>(
    rt: &R,
    failure: Failure,
    paths: Paths<'_>,
) -> Ending {
    let Some(path) = path_of(&failure, paths) else {
        return Ending::from(failure);
    };
    let about = fs::symlink_metadata(rt, path).ok();
    let is_link = about.as_ref().is_some_and(|about| about.is_symlink());
    let real = if is_link && is_of_a_resize(&failure, paths) {
        fs::canonicalize(rt, path).ok()
    } else {
        None
    };
    let shown = match &real {
        Some(real) => real.as_str(),
        None => path,
    };
    let named = Named {
        path: String::from_str(rt.alloc(), shown).ok(),
        holder: if is_busy(&failure) {
            holder_of(rt, path)
        } else {
            None
        },
        is_folder: about.is_some_and(|about| about.is_dir()),
    };
    Ending::Failed(failure, named)
}

// Whether a failure names the .part of an archive that a new one was to replace. The file that a link names is replaced, not the link.
fn is_of_a_resize(failure: &Failure, paths: Paths<'_>) -> bool {
    matches!(failure, Failure::Refused(Refusal::File(FileWord::Made, _)))
        && paths.made == paths.archive
}

// The path of the file that a failure names, as the words give it. A step whose reply said why it was refused may not have opened the
// archive.
fn path_of<'a>(failure: &Failure, paths: Paths<'a>) -> Option<&'a str> {
    let word = match failure {
        Failure::Refused(Refusal::File(word, _)) | Failure::Aside(Refusal::File(word, _)) => *word,
        Failure::Refused(Refusal::Unsafe(word, _)) | Failure::Aside(Refusal::Unsafe(word, _)) => {
            *word
        }
        Failure::Unwritten(_) => FileWord::NewFile,
        Failure::Refused(Refusal::Open(_) | Refusal::Call(_))
        | Failure::Aside(Refusal::Open(_) | Refusal::Call(_))
        | Failure::Told => FileWord::Archive,
        Failure::Refused(_) | Failure::Aside(_) | Failure::Faulted(_) | Failure::Stalled(_) =>
            return None,
    };
    match word {
        FileWord::Archive => paths.archive,
        FileWord::File => paths.file,
        _ => paths.made,
    }
}

// Whether another process holds the archive's lock.
fn is_busy(failure: &Failure) -> bool {
    matches!(
        failure,
        Failure::Refused(Refusal::File(FileWord::Archive, FileFault::Busy))
            | Failure::Aside(Refusal::File(FileWord::Archive, FileFault::Busy))
    )
}
