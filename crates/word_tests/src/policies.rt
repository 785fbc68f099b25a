//! A policy that is decided again after memory was refused. Rows of `examples/rows` show the decisions of policies.
ghost use Rattle.std.specs.Prelude.{◌≡◌, ◌<◌};

use retention::{Brief, Decision, Policy, decide};
use std::alloc::{AllocError, Global};
use std::process::Abort;
use std::test::Fail;

// A case of 10 bytes for each second of its time.
fn case(seq: u32, time: u8, pinned: bool) -> Brief
    ensures { result.seq ≡ seq }
{
    Brief {
        seq,
        time: u64::from(time),
        length: 10 * u64::from(time),
        pinned,
    }
}

// The decision about three cases.
fn decided(
    alloc: Global,
    cases: (Brief, Brief, Brief),
    policy: &Policy,
) -> Result<Decision, AllocError>
    requires second { cases.0.seq < cases.1.seq }
    requires third { cases.1.seq < cases.2.seq }
{
    let (first, second, third) = cases;
    decide(alloc, &[first, second, third], policy)
}

fn policy(keep: Option<u64>, bytes: Option<u64>, before: Option<u64>) -> Policy {
    Policy {
        keep,
        bytes,
        before,
    }
}

// These cases go, and the policy is met or not.
fn drops(rt: &impl Abort, decision: &Decision, dropped: &[u32], unmet: bool) {
    assert_eq!(rt; decision.dropped.as_slice(), dropped);
    assert_eq!(rt; decision.unmet, unmet);
}

// The decision, asked for again if memory is refused.
fn decided_again(
    alloc: Global,
    cases: (Brief, Brief, Brief),
    policy: &Policy,
) -> Result<Decision, AllocError>
    requires second { cases.0.seq < cases.1.seq }
    requires third { cases.1.seq < cases.2.seq }
{
    match decided(alloc, cases, policy) {
        Ok(decision) => Ok(decision),
        Err(_) => decided(alloc, cases, policy),
    }
}

#[test]
fn again_after_memory_was_refused(rt: HostRuntime) -> Result<(), Fail> {
    let cases = (case(4, 1, false), case(7, 2, false), case(9, 3, true));
    let both = decided_again(rt.alloc(), cases, &policy(Some(3), Some(29), Some(2)));
    assert!(&rt; both.is_ok());
    drops(&rt, &both?, &[4, 7], true);
    Ok(())
}
