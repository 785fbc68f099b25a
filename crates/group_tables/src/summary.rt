//! The summary of all cores of a group.
ghost use Rattle.std.specs.Prelude.{◌≡◌, map};
ghost use Rattle.group_tables.specs.Summary as spec;
ghost use Rattle.group_tables.specs.Values.{member_said};

use crate::rows::GroupMember;

// The first second of the year 2000.
const FIRST_TIME: u64 = 946_684_800;

/// How many cores are certain.
pub fn certain_count(members: &[GroupMember<'_>]) -> usize
    ensures { result ≡ spec.certain_count (map member_said members.now) }
{
    let mut count = 0;
    for member in members {
        if !member.is_perhaps {
            count += 1;
        }
    }
    count
}

/// How many cores are perhaps of the group.
pub fn perhaps_count(members: &[GroupMember<'_>]) -> usize
    ensures { result ≡ spec.perhaps_count (map member_said members.now) }
{
    let mut count = 0;
    for member in members {
        if member.is_perhaps {
            count += 1;
        }
    }
    count
}

/// The highest number of those that are certain.
pub fn newest(members: &[GroupMember<'_>]) -> u32
    ensures { result ≡ spec.newest (map member_said members.now) }
{
    let mut newest = 0;
    for member in members {
        if !member.is_perhaps {
            newest = newest.max(member.case.seq);
        }
    }
    newest
}

/// The last of the times that may be right; 0 if there are no such times.
pub fn last_time(latest: u64, members: &[GroupMember<'_>]) -> u64
    ensures { result ≡ spec.last_time latest (map member_said members.now) }
{
    let mut last = 0;
    for member in members {
        if is_time(latest, member.case.time) {
            last = last.max(member.case.time);
        }
    }
    last
}

// The first of them.
pub(crate) fn first_time(latest: u64, members: &[GroupMember<'_>]) -> u64
    ensures { result ≡ spec.first_time latest (map member_said members.now) }
{
    let mut first = last_time(latest, members);
    for member in members {
        if is_time(latest, member.case.time) {
            first = first.min(member.case.time);
        }
    }
    first
}

fn is_time(latest: u64, time: u64) -> bool
    ensures { result ≡ spec.is_time latest time }
{
    FIRST_TIME <= time && time <= latest
}
