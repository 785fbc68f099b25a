//! The labels of the cores of a group.
ghost use Rattle.std.specs.Prelude.{◌≡◌, ◌<◌, ◌||◌, [], IfOk, get_or, length, map};
ghost use Rattle.std.specs.List.{list_any};
ghost use Rattle.std.specs.Str.{bytes_eq};
ghost use Rattle.script_streams.specs.Replies.{PrintsText, printing};
ghost use Rattle.group_tables.specs.Summary as spec;
ghost use Rattle.group_tables.specs.Values.{member_said};

use crate::rows::GroupMember;
use script_streams::{Output, Reply};
use std::alloc::{AllocError, Global};

/// The labels of these cores, each once.
///
/// # Errors
///
/// There is no memory.
pub fn labels_of<'a>(
    alloc: Global,
    members: &[GroupMember<'a>],
) -> Result<Vec<&'a [u8]>, AllocError>
    ensures { IfOk result (λ labels. map (λ l. l.now) labels.items ≡ spec.labels (map member_said members.now)) }
{
    let mut labels = Vec::new(alloc);
    for at in 0..members.len() {
        let label = label_at(members, at);
        if is_old_label(&members[..at], label) {
            continue;
        }
        labels.push(label)?;
    }
    Ok(labels)
}

fn label_at<'a>(members: &[GroupMember<'a>], at: usize) -> &'a [u8]
    requires { at < length members.now }
    ensures { result.now ≡ get_or (map spec.label_of (map member_said members.now)) at [] }
{
    let case = members[at].case;
    case.label.as_slice()
}

// Whether one of these cores has the label, or it is empty.
fn is_old_label(members: &[GroupMember<'_>], label: &[u8]) -> bool
    ensures { result ≡ (list_any (λ m. bytes_eq m.case.now.label.items label.now) members.now || spec.is_no_label label.now) }
{
    has_label(members, label) || label.is_empty()
}

// Whether one of these cores has the label.
fn has_label(members: &[GroupMember<'_>], label: &[u8]) -> bool
    ensures { result ≡ list_any (λ m. bytes_eq m.case.now.label.items label.now) members.now }
{
    members
        .iter()
        .any(|member| member.case.label.as_slice() == label)
}

// Prints the first two labels, and how many more there are.
pub(crate) fn print_labels<O: Output>(reply: &mut Reply<'_, O>, labels: &[&[u8]])
    ensures { PrintsText (printing O.Output reply.old reply.new) (spec.labels_text (map (λ l. l.now) labels.now)) }
{
    match labels {
        [] => reply.print(b"-"),
        [one] => reply.print_text(one),
        [one, two, others @ ..] => {
            reply.print_text(one);
            reply.print(b",");
            reply.print_text(two);
            print_more(reply, others.len());
        }
    }
}

fn print_more<O: Output>(reply: &mut Reply<'_, O>, count: usize)
    ensures { PrintsText (printing O.Output reply.old reply.new) (spec.more_text count) }
{
    if count > 0 {
        reply.print(b",+");
        reply.print_decimal(count as u128);
    }
}
