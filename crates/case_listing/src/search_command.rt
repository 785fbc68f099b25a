// The command.
use crate::having::numbers_with;
use crate::listing::{ListWords, list_lines_over, list_over};
use archive_files::{
    ArchivePath, AskFault, Failure, Places, Reads, Refusal, find_cases, take_look, unasked,
};
use case_tables::{Wanted, Zone};
use script_streams::Output;
use shared_disk::{Looked, SharedDisk};
use std::alloc::Global;
use std::fs::File;
use std::rt::Files;
use std::time::Clock;

/// The request that the words of `search` make.
#[derive(Clone, Copy)]
pub struct SearchWords<'a> {
    /// The text to search for, by its bytes.
    pub text: &'a str,
    /// Which cases are searched, and how those that have the text are printed.
    pub list: ListWords<'a>,
}

/// Prints the cases whose images have a text somewhere, as `list` prints them. The images are read one after the other, each piece by piece,
/// from a look at the archive on, while others may change it. A case that is deleted meanwhile is left out. Times are in a zone.
///
/// # Errors
///
/// `BadLine` if a time can't be read, or the text is empty. The refusals of `take_look` of `archive_files` and of an opening. `OutOfMemory`
/// and `Disk`: nothing is printed. `WriteFailed` if the list could not be written. `Told` if no case has the text.
pub fn search<R: AllocGlobal + Files<File = File> + Clock, O: Output>(
    rt: &R,
    place: ArchivePath<'_>,
    words: SearchWords<'_>,
    zone: Zone<'_>,
    output: &mut O,
) -> Result<(), Failure> {
    let now = rt.since_1970().ok().map(|time| time.as_secs());
    let wanted = words.list.wanted_at(now, zone)?;
    if words.text.is_empty() {
        return Err(Failure::Refused(Refusal::BadLine));
    }
    let looked = take_look(rt, place)?;
    if search_looked(rt.alloc(), looked, &wanted, words, output)? {
        Ok(())
    } else {
        Err(Failure::Told)
    }
}

// The same from a look on. Returns whether a case has the text.
fn search_looked<S: SharedDisk + Drop, O: Output>(
    alloc: Global,
    looked: Looked<S>,
    wanted: &Wanted<'_>,
    words: SearchWords<'_>,
    output: &mut O,
) -> Result<bool, Failure> {
    let (again, numbers) = find_numbers(alloc, looked, wanted, words.text.as_bytes())?;
    let found = Wanted {
        numbers: Some(&numbers),
        ..*wanted
    };
    let disk = again.unlocked(Vec::new(alloc));
    if words.list.by_lines {
        return list_lines_over(alloc, disk, &found, output);
    }
    list_over(alloc, disk, &found, words.list.is_json, output)
}

// The numbers of the cases that have the text, and another look at the archive after they were read.
fn find_numbers<S: SharedDisk + Drop>(
    alloc: Global,
    looked: Looked<S>,
    wanted: &Wanted<'_>,
    text: &[u8],
) -> Result<(Looked<S>, Vec<u32>), Refusal> {
    let all = find_cases(alloc, looked.unlocked(Vec::new(alloc)), Reads::All);
    let Places { ranges, .. } = all.map_err(|fault| unasked(fault))?;
    let numbers = numbers_with(alloc, looked.unlocked(ranges), wanted, text)?;
    match Looked::look(alloc, looked.into_shared()) {
        Ok(again) => Ok((again, numbers)),
        Err(fault) => Err(unasked(AskFault::Look(fault))),
    }
}
