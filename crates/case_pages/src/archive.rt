// The page of an archive.
use crate::groups::put_groups;
use crate::page::Page;
use crate::plot::put_plot;
use crate::tags::Tag;
use crate::texts::{open, put, put_decimal, put_time};
use case_tables::tally_of;
use group_tables::GroupRow;
use journal_layout::{Entry, Kind};
use std::alloc::{AllocError, Global};
use std::collections::BTreeSet;

// The first second of the year 2000.
const FIRST_TIME: u64 = 946_684_800;

/// The known facts about an archive.
#[derive(Clone, Copy)]
pub struct PagedArchive<'p, 'a> {
    /// Its cases.
    pub cases: &'p [Entry],
    /// The groups of its cores.
    pub rows: &'p [GroupRow<'a>],
    /// The latest time that counts, in seconds since the epoch: see `latest_of`.
    pub latest: u64,
}

/// Puts the known facts about an archive: the amounts of its parts, the times at which its cores came, and a row for each of its first groups. The
/// numbers are those of the cases that come on the page.
///
/// # Errors
///
/// There is no memory.
pub fn put_archive(
    alloc: Global,
    page: &mut Page,
    archive: &PagedArchive<'_, '_>,
    numbers: &[u32],
) -> Result<(), AllocError> {
    let tally = tally_of(archive.cases);
    put_range(page, archive.cases, archive.latest);
    let programs = program_count(alloc, archive.rows)?;
    let hosts = host_count(alloc, archive.rows)?;
    open(page, Tag::Ul, "tiles");
    put_tile(page, tally.cores, b"cores");
    put_tile(page, archive.rows.len() as u64, b"crashes");
    put_tile(page, programs as u64, b"programs");
    put_tile(page, hosts as u64, b"hosts");
    put_tile(page, tally.executables, b"stored executables");
    page.close();
    page.close();
    let bars = put_plot(alloc, page, archive.rows, tally.cores, archive.latest)?;
    put_groups(alloc, page, archive.rows, archive.latest, bars, numbers)
}

// Puts the first and the last of the times of cores that count.
fn put_range(page: &mut Page, cases: &[Entry], latest: u64) {
    let mut first = 0;
    let mut last = 0;
    for case in cases {
        if is_counted(case, latest) {
            first = if first == 0 {
                case.time
            } else {
                case.time.min(first)
            };
            last = case.time.max(last);
        }
    }
    open(page, Tag::P, "dim");
    put_time(page, first);
    page.text(b" to ");
    put_time(page, last);
    page.close();
}

fn is_counted(case: &Entry, latest: u64) -> bool {
    case.kind == Kind::Core && FIRST_TIME <= case.time && case.time <= latest
}

fn put_tile(page: &mut Page, count: u64, text: &[u8]) {
    page.open(Tag::Li, &[]);
    page.open(Tag::B, &[]);
    put_decimal(page, count);
    page.close();
    put(page, Tag::Span, text);
    page.close();
}

// How many programs crashed.
fn program_count(alloc: Global, rows: &[GroupRow<'_>]) -> Result<usize, AllocError> {
    let mut programs = BTreeSet::new(alloc);
    for row in rows {
        programs.insert(row.crash.program.as_slice())?;
    }
    Ok(programs.len())
}

// How many labels the cores have.
fn host_count(alloc: Global, rows: &[GroupRow<'_>]) -> Result<usize, AllocError> {
    let mut hosts = BTreeSet::new(alloc);
    for row in rows {
        add_hosts(&mut hosts, row)?;
    }
    Ok(hosts.len())
}

fn add_hosts<'r, 'a>(
    hosts: &mut BTreeSet<&'r [u8]>,
    row: &'r GroupRow<'a>,
) -> Result<(), AllocError> {
    for member in &row.members {
        let label = member.case.label.as_slice();
        if !label.is_empty() {
            hosts.insert(label)?;
        }
    }
    Ok(())
}
