// The front that the names of one program's cores share.
ghost use Rattle.std.specs.Prelude.{◌≡◌, ◌<◌, ◌≤◌, ◌++◌, [], List, ℕ, length, take, drop, MatchOption};
ghost use Rattle.script_lines.specs.Said.{said};
ghost use Rattle.core_handler.specs.Fronts as spec;

use inspector_cli::{Naming, NewStream, line_stream};
use journal_layout::Name;
use stream_names::Template;

// The front that the names of a program's cores share: the text that the template gives
// up to its first process, thread or time. If it gives nothing, all names begin so.
#[tactic(auto, using(crate::proofs::NamingLemmas::front_faulty))]
pub(crate) fn program_front(begin: &[u8], template: &str) -> Name
    ensures { result.items ≡ spec.program_front template.now (said begin.now) }
{
    let Ok(template) = Template::parse(program_part(template.as_bytes())) else {
        return Name::new();
    };
    let naming = Naming {
        template,
        uses_pid: false,
        by_build: false,
    };
    match line_stream(begin, &naming) {
        Ok(stream) => {
            let NewStream { name, .. } = stream;
            name
        }
        Err(_) => Name::new(),
    }
}

// The part of a template before its first process, thread or time: `%p`, `%P`, `%i`, `%I` or `%t`.
fn program_part(template: &[u8]) -> &[u8]
    ensures { result.now ≡ spec.shared_front template.now }
{
    let mut rest = template;
    while let Some(after) = after_shared(rest) {
        rest = after;
    }
    &template[..template.len() - rest.len()]
}

// The text after the first part of a template, unless that belongs to one core alone.
fn after_shared(template: &[u8]) -> Option<&[u8]>
    ensures shared { MatchOption result (spec.shared_front template.now ≡ [])
        (λ after. (part : List ℕ) × (template.now ≡ part ++ after.now) × (spec.shared_front template.now ≡ part ++ spec.shared_front after.now)) }
    ensures shorter { MatchOption result (Unit {0}) (λ after. length after.now < length template.now) }
{
    let length = shared_length(template);
    if length == 0 {
        return None;
    }
    Some(&template[length..])
}

// How many bytes the first part of a template has. If it is of one core alone, or there is no such part, that is 0.
#[tactic(auto, using(crate::proofs::FrontLemmas::front_short, crate::proofs::FrontLemmas::front_empty, crate::proofs::FrontLemmas::front_other, crate::proofs::FrontLemmas::front_stop, crate::proofs::FrontLemmas::front_key))]
fn shared_length(template: &[u8]) -> usize
    ensures within { result ≤ length template.now }
    ensures shared { spec.shared_front template.now ≡ take result template.now ++ spec.shared_front (drop result template.now) }
    ensures ends { result ≡ 0 → spec.shared_front template.now ≡ [] }
{
    if template.len() < 2 {
        return template.len();
    }
    if template[0] != b'%' {
        return 1;
    }
    if prints_one_core(template[1]) { 0 } else { 2 }
}

// Whether `%` with this byte is of one core alone.
fn prints_one_core(key: u8) -> bool
    ensures { result ≡ spec.prints_one_core key }
{
    matches!(key, b'p' | b'P' | b'i' | b'I' | b't')
}
