// The fields in the name of a core: `core.USER.HOST.PROGRAM.PID.TIME`, as the handler's template makes it.
ghost use Rattle.std.specs.Prelude.{◌≡◌};
ghost use Rattle.journal_layout.specs.Case.{case_of};
ghost use Rattle.case_tables.specs.NameParts as spec;

use fair_share::{program_of, user_of};
use journal_layout::Entry;
use script_words::parse_number;

/// The number of the user, by the name of a core. `None` if the name has none: it does not begin with `core.` and digits, it does not end in
/// two numbers (the process and the time), or the number takes more than 32 bits.
pub fn user_in(case: &Entry) -> Option<u32>
    ensures { result ≡ spec.user_in (case_of case.now) }
{
    let user = parse_number(user_of(&case.name))?;
    u32::try_from(user).ok()
}

/// The host, by the name of a core and its label: the label, if it and a dot are behind the user in the name. Otherwise it is empty.
pub fn host_in(case: &Entry) -> &[u8]
    ensures { result.now ≡ spec.host_in (case_of case.now) }
{
    if has_host(case) { &case.label } else { &[] }
}

/// The program, by the name of a core: the text between the user and the process, without the host, if `host_in` knows it. Otherwise the
/// host is before it. It is empty if the name has no user.
pub fn program_in(case: &Entry) -> &[u8]
    ensures { result.now ≡ spec.program_in (case_of case.now) }
{
    let rest = behind_user(&case.name);
    if has_host(case) {
        behind(rest, case.label.len() + 1)
    } else {
        rest
    }
}

// The text between the user and the process.
fn behind_user(name: &[u8]) -> &[u8]
    ensures { result.now ≡ spec.behind_user name.now }
{
    let user = user_of(name);
    if user.is_empty() {
        return &[];
    }
    behind(program_of(name), user.len() + 6)
}

// A text without its first bytes.
fn behind(text: &[u8], count: usize) -> &[u8]
    ensures { result.now ≡ spec.behind count text.now }
{
    if count < text.len() {
        &text[count..]
    } else {
        &[]
    }
}

// Whether the label and a dot are behind the user.
fn has_host(case: &Entry) -> bool
    ensures { result ≡ spec.has_host (case_of case.now) }
{
    let label = case.label.as_slice();
    let rest = behind_user(&case.name);
    !label.is_empty() && rest.starts_with(label) && has_dot(behind(rest, label.len()))
}

// Whether a text begins with a dot.
fn has_dot(text: &[u8]) -> bool
    ensures { result ≡ spec.has_dot text.now }
{
    match text {
        [byte, ..] => *byte == b'.',
        [] => false,
    }
}
