// The request of the kernel's handler, by its configuration and by the words that the kernel gives it.
ghost use Rattle.std.specs.Prelude.{◌≡◌, ℕ, ◌+◌, ◌-◌, ◌<◌, ◌↔◌, IfOk, IfErr, None, Some};
ghost use Rattle.stream_names.specs.Template.{template_fault};
ghost use Rattle.script_lines.specs.Said.{said};
ghost use Rattle.core_handler.specs.Fronts as fronts;
ghost use Rattle.core_handler.specs.Requesting as spec;

use crate::Config;
use crate::fronts::program_front;
use crate::handling::HANDLER_LIMIT;
use archive_files::{StoreRequest, StoreWords};
use arrayvec::ArrayVec;
use inspector_cli::{Burst, Naming, Order, StoreOptions};
use retention::Policy;
use std::io;
use std::time::Duration;
use stream_names::{Template, TemplateFault};

// The request to store the core that a line begins, named by this template, with the length that is stated. The time is in
// seconds since 1970.
#[tactic(auto, using(crate::proofs::NamingLemmas::named_by_is))]
pub(crate) fn request_of(
    config: &Config<'_>,
    begin: Vec<u8>,
    length: Option<u64>,
    template: &str,
    now: Option<u64>,
    label: Option<ArrayVec<u8, 64>>,
) -> Result<StoreRequest, TemplateFault>
    ensures asked { IfOk result (λ request. spec.Asks config.now begin.items length template.now now label request) }
    ensures refused { IfErr result (λ fault. template_fault template.now ≡ Some fault) }
{
    let naming = Naming {
        template: Template::parse(template.as_bytes())?,
        uses_pid: config.uses_pid,
        by_build: false,
    };
    let options = StoreOptions {
        label,
        pin: false,
        fit: config.fit,
        order: order_of(config.fair),
        cut: cut_of(config),
        length,
        digest: None,
        burst: burst_of(config, &begin, template),
    };
    let words = StoreWords {
        policy: policy_of(config, now),
        begin,
        options,
    };
    Ok(StoreRequest::of(words, &naming, limit_of(config)))
}

// The least bytes that a process may allow its core: a page. Linux writes no smaller core into a file.
const LEAST_CORE: u64 = 4096;

// Whether a core is lost whose process allows it so many bytes, if that is stated.
pub(crate) fn is_limited(config: &Config<'_>, core_limit: Option<u64>) -> bool
    ensures { result ≡ spec.is_limited config.now core_limit }
{
    match core_limit {
        Some(bytes) => config.obeys_limit && bytes < LEAST_CORE,
        None => false,
    }
}

// The most bytes of an image.
fn limit_of(config: &Config<'_>) -> u64
    ensures { result ≡ spec.limit_of config.now }
{
    config.limit.unwrap_or(HANDLER_LIMIT)
}

/// In which order cases go: the fair one, if that is asked for.
pub fn order_of(fair: bool) -> Order
    ensures { result ≡ spec.order_of fair }
{
    if fair { Order::Fair } else { Order::Oldest }
}

// How many bytes are kept of a core that is to be cut.
fn cut_of(config: &Config<'_>) -> Option<u64>
    ensures { result ≡ spec.cut_of config.now }
{
    if config.cut {
        Some(limit_of(config))
    } else {
        None
    }
}

// How many cores of the program are stored in how many seconds, if the configuration says so.
fn burst_of(config: &Config<'_>, begin: &[u8], template: &str) -> Option<Burst>
    ensures { result ≡ spec.burst_of config.now.burst (fronts.program_front template.now (said begin.now)) }
{
    let burst = config.burst?;
    Some(Burst {
        front: program_front(begin, template),
        most: burst.most,
        seconds: burst.seconds,
    })
}

// The policy by which cases are retired.
fn policy_of(config: &Config<'_>, now: Option<u64>) -> Option<Policy>
    ensures { result ≡ spec.policy_of config.now now }
{
    policy_within(config.keep, config.bytes, time_before(now, config.before))
}

/// The policy with these limits, if there is one of them.
pub fn policy_within(keep: Option<u64>, bytes: Option<u64>, before: Option<u64>) -> Option<Policy>
    ensures { result ≡ spec.policy_within keep bytes before }
{
    if keep.is_none() && bytes.is_none() && before.is_none() {
        return None;
    }
    Some(Policy {
        keep,
        bytes,
        before,
    })
}

// The time of this age, if it is said, and the time is known.
fn time_before(now: Option<u64>, age: Option<u64>) -> Option<u64>
    ensures { result ≡ spec.time_before now age }
{
    match (now, age) {
        (Some(now), Some(age)) => Some(earlier(now, age)),
        _ => None,
    }
}

// The time that is so many seconds before this one, or 0. A core from before it is older than that.
fn earlier(now: u64, age: u64) -> u64
    ensures exact { result ≡ now - age }
    ensures older { (made : ℕ) → (made < result ↔ made + age < now) }
{
    now.saturating_sub(age)
}

// The time of a clock, in seconds since 1970.
pub(crate) fn seconds_of(read: io::Result<Duration>) -> Option<u64>
    ensures { spec.IsTimeRead read result }
{
    match read {
        Ok(time) => Some(time.as_secs()),
        Err(_) => None,
    }
}
