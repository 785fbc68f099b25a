//! Cores grouped by their signatures.
ghost use Rattle.std.specs.Prelude.{◌≡◌, ◌==◌, ◌<◌, IfOk, Some, filter, find, fold, length, max, map, slice_index_or};
ghost use Rattle.std.specs.List.{list_all, list_any};
ghost use Rattle.crash_signatures.specs.Grouping.{IsGrouping, group_said, group_with, grouped_members};
ghost use Rattle.crash_signatures.specs.Groups as spec;
ghost use Rattle.crash_signatures.specs.declared.groups.Member.{Member};

use std::alloc::{AllocError, Global};

/// A core, by the facts that decide its group.
#[derive(Clone, Copy)]
pub struct Core {
    /// The case's number.
    pub number: u64,
    /// Which program, signal and signature it has: equal numbers for equal ones.
    pub signature: usize,
    /// Frames are missing behind the signature's words.
    pub is_missing: bool,
    /// At which place of which build it crashed, if that is known: equal numbers for equal places.
    pub place: Option<usize>,
}

/// The cores of one crash.
#[derive(Drop)]
pub struct Group {
    /// Their signature.
    pub signature: usize,
    /// The cases that have it.
    pub cases: Vec<u64>,
    /// The cases of which frames are missing, and that perhaps belong here: this is the one signature of the cores of the same
    /// place whose frames are all there.
    pub perhaps: Vec<u64>,
}

/// A core with the group that it is in.
#[derive(Clone, Copy)]
pub(crate) struct Member {
    number: u64,
    group: usize,
    is_perhaps: bool,
}

/// The groups of cores, the one with most cores first, and of groups with equally many the one with the newest case.
pub fn grouped(alloc: Global, cores: &[Core]) -> Result<Vec<Group>, AllocError>
    ensures { IfOk result (λ groups. IsGrouping cores.now (map group_said groups.items)) }
{
    let members = members_of(alloc, cores)?;
    let mut groups = groups_in(alloc, members.as_slice())?;
    groups.sort_unstable_by_key(|group| rank(group));
    Ok(groups)
}

// The cores with their groups.
fn members_of(alloc: Global, cores: &[Core]) -> Result<Vec<Member>, AllocError>
    ensures { IfOk result (λ members. members.items ≡ spec.members cores.now) }
{
    cores
        .iter()
        .map(|core| member_of(cores, core))
        .collect(alloc)
}

fn member_of(cores: &[Core], core: &Core) -> Member
    ensures { result ≡ spec.member_of cores.now core.now }
{
    match home_of(cores, core) {
        Some(group) => Member {
            number: core.number,
            group,
            is_perhaps: true,
        },
        None => Member {
            number: core.number,
            group: core.signature,
            is_perhaps: false,
        },
    }
}

// The signature that a core of which frames are missing perhaps has.
fn home_of(cores: &[Core], core: &Core) -> Option<usize>
    ensures { result ≡ spec.home_of cores.now core.now }
{
    if !core.is_missing {
        return None;
    }
    match core.place {
        Some(place) => home_at(cores, place),
        None => None,
    }
}

// The one signature of the cores of a place whose frames are all there.
fn home_at(cores: &[Core], place: usize) -> Option<usize>
    ensures { result ≡ spec.home_at cores.now place }
{
    let signature = first_home(cores, place)?;
    if is_sole(cores, place, signature) {
        Some(signature)
    } else {
        None
    }
}

fn first_home(cores: &[Core], place: usize) -> Option<usize>
    ensures { result ≡ spec.first_home cores.now place }
{
    match cores.iter().find(|core| is_home(core, place)) {
        Some(core) => Some(core.signature),
        None => None,
    }
}

fn is_sole(cores: &[Core], place: usize, signature: usize) -> bool
    ensures { result ≡ list_all (spec.has_no_other place signature) cores.now }
{
    cores.iter().all(|core| !is_home(core, place) || core.signature == signature)
}

// Whether a core is of this place, and its frames are all there.
fn is_home(core: &Core, place: usize) -> bool
    ensures { result ≡ spec.is_home place core.now }
{
    match core.place {
        Some(its) => its == place && !core.is_missing,
        None => false,
    }
}

// The groups, each at the place of its first member.
fn groups_in(alloc: Global, members: &[Member]) -> Result<Vec<Group>, AllocError>
    ensures { IfOk result (λ groups. map group_said groups.items ≡ grouped_members members.now) }
{
    let mut groups = Vec::new(alloc);
    for at in 0..members.len() {
        let signature = group_at(members, at);
        if has_group(&members[..at], signature) {
            continue;
        }
        groups.push(group_with(alloc, members, signature)?)?;
    }
    Ok(groups)
}

fn group_at(members: &[Member], at: usize) -> usize
    requires { at < length members.now }
    ensures { (m : Member) → result ≡ (slice_index_or members.now at m).group }
{
    members[at].group
}

fn has_group(members: &[Member], signature: usize) -> bool
    ensures { result ≡ list_any (λ m. m.group == signature) members.now }
{
    members.iter().any(|member| member.group == signature)
}

// The group of a signature.
fn group_with(alloc: Global, members: &[Member], signature: usize) -> Result<Group, AllocError>
    ensures { IfOk result (λ group. group_said group ≡ group_with members.now signature) }
{
    let cases = numbers_of(alloc, members, signature, false)?;
    let perhaps = numbers_of(alloc, members, signature, true)?;
    Ok(Group {
        signature,
        cases,
        perhaps,
    })
}

// The numbers of the members of a group that are certain, or that are not.
fn numbers_of(
    alloc: Global,
    members: &[Member],
    signature: usize,
    is_perhaps: bool,
) -> Result<Vec<u64>, AllocError>
    ensures { IfOk result (λ numbers. numbers.items ≡ map (λ m. m.number) (filter (spec.is_in signature is_perhaps) members.now)) }
{
    members
        .iter()
        .filter(|member| is_in(member, signature, is_perhaps))
        .map(|member| member.number)
        .collect(alloc)
}

fn is_in(member: &Member, signature: usize, is_perhaps: bool) -> bool
    ensures { result ≡ spec.is_in signature is_perhaps member.now }
{
    member.group == signature && member.is_perhaps == is_perhaps
}

// The rank of a group in the order: the more cores, and the newer the newest that is certain, the lower.
fn rank(group: &Group) -> u128
    ensures { result ≡ spec.rank (group_said group.now) }
{
    let others = u64::MAX - (group.cases.len() as u64 + group.perhaps.len() as u64);
    (u128::from(others) << 64) + u128::from(u64::MAX - newest(group.cases.as_slice()))
}

fn newest(cases: &[u64]) -> u64
    ensures { result ≡ fold max 0 cases.now }
{
    cases.iter().fold(0, |newest, number| newest.max(*number))
}
