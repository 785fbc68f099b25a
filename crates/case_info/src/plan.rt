// Which cases of an archive a prune drops, by the facts that were gathered of them.
ghost use Rattle.std.specs.Prelude.{◌≡◌, ◌≤◌, true, IfOk, List, length, map};
ghost use Rattle.std.specs.List.Sorted.{IsStrictlyIncreasing};
ghost use Rattle.pruning.specs.Cases.{number};
ghost use Rattle.script_streams.specs.Replies.{PrintsText, printing};
ghost use Rattle.case_info.specs.Gathering.{FileValue, file_view, files_view, listed_view};
ghost use Rattle.case_info.specs.Planning.{AreSeenAs, IsContent, IsPlan, IsSeenAs, drop_line, lent_view, mapped_of, mapped_view};

use crate::gathering::{Gathered, ListedCase};
use crate::kept_files::{KeptFile, lent_id};
use archive_files::Refusal;
use pruning::{Content, LiveCase, MappedFile, Pruning, prune};
use retention::Policy;
use script_streams::{Output, Reply, StreamFault, print_ok};
use std::alloc::{AllocError, Global};

// A mapped file, borrowed.
fn lent_file(file: &KeptFile) -> MappedFile<'_>
    ensures { mapped_view result ≡ mapped_of (file_view file.now) }
{
    MappedFile {
        name: &file.name,
        told: lent_id(&file.told),
        used: lent_id(&file.used),
    }
}

// The files that a core maps, borrowed.
fn lent_files<'a>(alloc: Global, files: &'a [KeptFile]) -> Result<Vec<MappedFile<'a>>, AllocError>
    ensures { IfOk result (λ lent. map mapped_view lent.items ≡ map mapped_of (map file_view files.now)) }
{
    let mut lent = Vec::new(alloc);
    for file in files {
        lent.push(lent_file(file))?;
    }
    Ok(lent)
}

// The same of each case.
fn lent_cores<'a>(
    alloc: Global,
    cores: &'a [Vec<KeptFile>],
) -> Result<Vec<Vec<MappedFile<'a>>>, AllocError>
    ensures { IfOk result (λ lent. map lent_view lent.items ≡ map (map mapped_of) (map files_view cores.now)) }
{
    let mut lent = Vec::new(alloc);
    for files in cores {
        lent.push(lent_files(alloc, files)?)?;
    }
    Ok(lent)
}

// The contents of a case, as a prune sees them.
fn content_of<'t, 'a>(is_core: bool, files: &'t [MappedFile<'a>]) -> Content<'t, 'a>
    ensures { (kept : List FileValue) → map mapped_view files.entry.now ≡ map mapped_of kept → IsContent is_core kept result }
{
    if is_core {
        Content::Core(files)
    } else {
        Content::Executable
    }
}

// A case, as a prune sees it.
fn live_case<'t, 'a>(case: &'a ListedCase, files: &'t [MappedFile<'a>]) -> LiveCase<'t, 'a>
    ensures { (kept : List FileValue) → map mapped_view files.entry.now ≡ map mapped_of kept → IsSeenAs (listed_view case.entry.now) kept result }
{
    LiveCase {
        name: &case.name,
        brief: case.brief,
        content: content_of(case.is_core, files),
    }
}

// The cases, as a prune sees them.
fn live_cases<'t, 'a>(
    alloc: Global,
    cases: &'a [ListedCase],
    lent: &'t [Vec<MappedFile<'a>>],
) -> Result<Vec<LiveCase<'t, 'a>>, AllocError>
    requires { length cases.now ≤ length lent.now }
    ensures { IfOk result (λ live. (files : List (List FileValue)) → length files ≡ length cases.entry.now → map lent_view lent.entry.now ≡ map (map mapped_of) files
        → AreSeenAs (map listed_view cases.entry.now) files live.items) }
{
    let mut live = Vec::new(alloc);
    for i in 0..cases.len() {
        live.push(live_case(&cases[i], &lent[i]))?;
    }
    Ok(live)
}

// Whether the number of each case is above that of the one before it.
fn are_rising(cases: &[LiveCase<'_, '_>]) -> bool
    ensures { result ≡ true → IsStrictlyIncreasing (map number cases.now) }
{
    for i in 1..cases.len() {
        if cases[i - 1].brief.seq >= cases[i].brief.seq {
            return false;
        }
    }
    true
}

// Which of these cases a prune drops. There are files for each, and an opening sees to it that their numbers rise.
pub(crate) fn planned(
    alloc: Global,
    gathered: &Gathered,
    policy: &Policy,
) -> Result<Pruning, Refusal>
    ensures { IfOk result (IsPlan policy.now gathered.now) }
{
    if gathered.cases.len() != gathered.files.len() {
        return Err(Refusal::Disk);
    }
    let lent = lent_cores(alloc, &gathered.files)?;
    let live = live_cases(alloc, &gathered.cases, &lent)?;
    if !are_rising(&live) {
        return Err(Refusal::Disk);
    }
    Ok(prune(alloc, &live, policy)?)
}

// The name of the case of that number.
fn name_of<'a>(cases: &'a [ListedCase], seq: u32) -> &'a [u8] {
    match cases.binary_search_by_key(&seq, |case| case.brief.seq) {
        Ok(at) => &cases[at].name,
        Err(_) => b"",
    }
}

// Prints a case that would go.
fn print_drop<O: Output>(reply: &mut Reply<'_, O>, seq: u32, name: &[u8])
    ensures { PrintsText (printing O.Output reply.old reply.new) (drop_line seq name.now) }
{
    reply.print(b"drop ");
    reply.print_decimal(u128::from(seq));
    reply.print(b" ");
    reply.print_text(name);
    reply.print(b"\n");
}

// Prints which cases would go.
pub(crate) fn print_plan<O: Output>(
    cases: &[ListedCase],
    pruning: &Pruning,
    output: &mut O,
) -> Result<(), StreamFault> {
    let mut reply = Reply::new(output);
    for seq in &pruning.dropped {
        print_drop(&mut reply, *seq, name_of(cases, *seq));
    }
    if pruning.unmet {
        reply.print(b"unmet\n");
    }
    print_ok(&mut reply);
    reply.finish()
}
