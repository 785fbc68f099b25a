// Cases as people name them.
ghost use Rattle.std.specs.Prelude.{◌≡◌, None, find, fold, map, option_map, reverse};
ghost use Rattle.journal_layout.specs.Case.{case_of};
ghost use Rattle.case_tables.specs.Named.{credible, has_name, is_core, latest_core, later, named_number};

use journal_layout::{Entry, Kind};

// The first second of the year 2000. A core from before it was made by a machine whose clock was not set.
const FIRST_TIME: u64 = 946_684_800;

/// The number of the case that a word names, of cases in the order of their numbers. `last` is the core with the highest number. `latest` is
/// the core with the latest time, of those with that time the one with the highest number; a time before the year 2000, or after `until`, in
/// seconds since the epoch, counts as 0. Any other word is the name of a case.
pub fn number_named(cases: &[Entry], word: &[u8], until: u64) -> Option<u32>
    ensures is_named { result ≡ named_number until word.now (map case_of cases.now) }
{
    if word == b"last".as_slice() {
        return number_of(last_core(cases));
    }
    if word == b"latest".as_slice() {
        return number_of(latest_core(cases, until));
    }
    number_of(case_of_name(cases, word))
}

fn number_of(case: Option<&Entry>) -> Option<u32>
    ensures { result ≡ option_map (λ (e : _). e.now.seq) case.entry }
{
    match case {
        Some(case) => Some(case.seq),
        None => None,
    }
}

fn last_core(cases: &[Entry]) -> Option<&Entry>
    ensures { option_map (λ (e : _). e.now) result ≡ find (λ e. is_core (case_of e)) (reverse cases.now) }
{
    cases.iter().rev().find(|case| is_core(case))
}

fn latest_core(cases: &[Entry], until: u64) -> Option<&Entry>
    ensures { option_map (λ (e : _). case_of e.now) result ≡ latest_core until (map case_of cases.now) }
{
    let mut latest = None;
    for case in cases {
        latest = later(latest, case, until);
    }
    latest
}

// A case, if it is a core that is not earlier than another one.
fn later<'a>(latest: Option<&'a Entry>, case: &'a Entry, until: u64) -> Option<&'a Entry>
    ensures { option_map (λ (e : _). case_of e.now) result ≡ later until (option_map (λ (e : _). case_of e.now) latest.entry) (case_of case.entry.now) }
{
    let Some(other) = latest else {
        return if is_core(case) { Some(case) } else { None };
    };
    if is_core(case) && credible(case.time, until) >= credible(other.time, until) {
        Some(case)
    } else {
        latest
    }
}

// A time, or 0 if no core can be from then.
fn credible(time: u64, until: u64) -> u64
    ensures { result ≡ credible until time }
{
    if FIRST_TIME <= time && time <= until {
        time
    } else {
        0
    }
}

/// The case of this name.
pub fn case_of_name<'a>(cases: &'a [Entry], name: &[u8]) -> Option<&'a Entry>
    ensures { option_map (λ (e : _). e.now) result ≡ find (λ e. has_name name.now (case_of e)) cases.now }
{
    cases.iter().find(|case| has_name(case, name))
}

fn is_core(case: &Entry) -> bool
    ensures { result ≡ is_core (case_of case.now) }
{
    match case.kind {
        Kind::Core => true,
        Kind::Exec => false,
    }
}

fn has_name(case: &Entry, name: &[u8]) -> bool
    ensures { result ≡ has_name name.now (case_of case.now) }
{
    case.name.as_slice() == name
}
