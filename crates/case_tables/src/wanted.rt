// Which cases a list shows.
ghost use Rattle.std.specs.Prelude.{◌≡◌, ◌==◌, ◌++◌, ◌∷◌, [], filter, map, if◌then◌else◌, IfOk, OnOk, option_map};
ghost use Rattle.std.specs.List.{list_any};
ghost use Rattle.journal_layout.specs.Case.{case_of};
ghost use Rattle.case_tables.specs.Order.{IsShown};
ghost use Rattle.case_tables.specs.Wanted.{chosen, has_text, has_user, is_among, is_kept, is_number, is_of_kind, is_since, is_until, is_wanted, last_of, skipped};

use crate::name_parts::{program_in, user_in};
use crate::order::{Order, put_in_order};
use crate::zones::Zone;
use journal_layout::{Entry, Kind};
use memchr::memmem;
use std::alloc::{AllocError, Global};

/// The conditions that wanted cases meet. An absent condition is not checked; all others must hold.
#[derive(Clone, Copy)]
pub struct Wanted<'a> {
    pub kind: Option<Kind>,
    /// Only cases of these numbers.
    pub numbers: Option<&'a [u32]>,
    /// A text that is somewhere in the name.
    pub name: Option<&'a [u8]>,
    pub pid: Option<u32>,
    /// The user in the name of a core, as `user_in` has it.
    pub user: Option<u32>,
    /// A text that is somewhere in the program of a name, as `program_in` has it.
    pub program: Option<&'a [u8]>,
    pub signal: Option<u32>,
    /// The time is known, and not before this one, in seconds since the epoch.
    pub since: Option<u64>,
    /// The time is known, and before this one, in seconds since the epoch.
    pub until: Option<u64>,
    /// A text that is somewhere in the label.
    pub label: Option<&'a [u8]>,
    /// Only pinned cases.
    pub pinned: bool,
    /// So many of the highest numbers of those that are left.
    pub last: Option<usize>,
    /// In which order a list shows them.
    pub order: Order,
    /// In which zone a table shows their times.
    pub zone: Zone<'a>,
}

impl Wanted<'_> {
    /// Whether a case is wanted, were it the only one.
    pub fn takes(&self, case: &Entry) -> bool
        ensures { result ≡ is_wanted self.now (case_of case.now) }
    {
        is_of_kind(self.kind, case.kind)
            && is_among(self.numbers, case.seq)
            && has_text(self.name, case.name.as_slice())
            && is_number(self.pid, case.pid)
            && has_user(self.user, case)
            && has_text(self.program, program_in(case))
            && is_number(self.signal, case.signal)
            && is_since(self.since, case.time)
            && is_until(self.until, case.time)
            && has_text(self.label, case.label.as_slice())
            && is_kept(self.pinned, case.pinned)
    }
}

fn is_of_kind(wanted: Option<Kind>, kind: Kind) -> bool
    ensures { result ≡ is_of_kind wanted kind }
{
    match (wanted, kind) {
        (None, _) => true,
        (Some(Kind::Core), Kind::Core) => true,
        (Some(Kind::Exec), Kind::Exec) => true,
        (Some(Kind::Core), Kind::Exec) => false,
        (Some(Kind::Exec), Kind::Core) => false,
    }
}

fn is_among(wanted: Option<&[u32]>, number: u32) -> bool
    ensures { result ≡ is_among (option_map (λ ns. ns.now) wanted.entry) number }
{
    match wanted {
        Some(numbers) => is_one_of(numbers, number),
        None => true,
    }
}

fn is_one_of(numbers: &[u32], number: u32) -> bool
    ensures { result ≡ list_any (λ m. m == number) numbers.now }
{
    numbers.iter().any(|wanted| *wanted == number)
}

fn is_number(wanted: Option<u32>, number: u32) -> bool
    ensures { result ≡ is_number wanted number }
{
    match wanted {
        Some(wanted) => wanted == number,
        None => true,
    }
}

fn has_user(wanted: Option<u32>, case: &Entry) -> bool
    ensures { result ≡ has_user wanted (case_of case.now) }
{
    let Some(wanted) = wanted else {
        return true;
    };
    match user_in(case) {
        Some(user) => wanted == user,
        None => false,
    }
}

fn has_text(wanted: Option<&[u8]>, text: &[u8]) -> bool
    ensures { result ≡ has_text (option_map (λ t. t.now) wanted.entry) text.now }
{
    match wanted {
        Some(wanted) => memmem::find(text, wanted).is_some(),
        None => true,
    }
}

fn is_since(start: Option<u64>, time: u64) -> bool
    ensures { result ≡ is_since start time }
{
    match start {
        Some(start) => 0 < time && start <= time,
        None => true,
    }
}

fn is_until(end: Option<u64>, time: u64) -> bool
    ensures { result ≡ is_until end time }
{
    match end {
        Some(end) => 0 < time && time < end,
        None => true,
    }
}

fn is_kept(only: bool, pinned: bool) -> bool
    ensures { result ≡ is_kept only pinned }
{
    if only { pinned } else { true }
}

// The cases that are wanted. The error is that there is no memory.
fn find_wanted<'a>(
    alloc: Global,
    cases: &'a [Entry],
    wanted: &Wanted<'_>,
) -> Result<Vec<&'a Entry>, AllocError>
    ensures { IfOk result (λ found. map (λ e. case_of e.now) found.items ≡ filter (is_wanted wanted.now) (map case_of cases.now)) }
{
    let mut found = Vec::new(alloc);
    for case in cases {
        add_wanted(&mut found, case, wanted)?;
    }
    Ok(found)
}

// Adds a case, if it is wanted.
fn add_wanted<'a>(
    found: &mut Vec<&'a Entry>,
    case: &'a Entry,
    wanted: &Wanted<'_>,
) -> Result<(), AllocError>
    ensures { OnOk result (map (λ e. case_of e.now) found.new.items
        ≡ map (λ e. case_of e.now) found.old.items ++ (if is_wanted wanted.now (case_of case.entry.now) then case_of case.entry.now ∷ [] else [])) }
{
    if !wanted.takes(case) {
        return Ok(());
    }
    found.push(case)?;
    Ok(())
}

// The cases that are wanted, in the order in which they are shown. The error is that there is no memory.
pub(crate) fn shown_of<'a>(
    alloc: Global,
    cases: &'a [Entry],
    wanted: &Wanted<'_>,
) -> Result<Vec<&'a Entry>, AllocError>
    ensures { IfOk result (λ found. IsShown wanted.now.order (chosen wanted.now (map case_of cases.now)) (map (λ e. case_of e.now) found.items)) }
{
    let found = find_wanted(alloc, cases, wanted)?;
    let mut shown = last_of(&found, wanted.last).to_vec(alloc)?;
    put_in_order(&mut shown, wanted.order);
    Ok(shown)
}

// The last so many, or all.
fn last_of<'a, 'b>(cases: &'b [&'a Entry], last: Option<usize>) -> &'b [&'a Entry]
    ensures { result.now ≡ last_of last cases.now }
{
    cases.split_at(skipped(last, cases.len())).1
}

// How many of so many are before the last ones.
fn skipped(last: Option<usize>, count: usize) -> usize
    ensures { result ≡ skipped last count }
{
    match last {
        Some(last) => count.saturating_sub(last),
        None => 0,
    }
}
