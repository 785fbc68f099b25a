// The groups of cores that crashed alike.
use crate::attributes::{Attribute, AttributeName, Value};
use crate::page::Page;
use crate::span::Span;
use crate::spark::put_spark;
use crate::tags::Tag;
use crate::texts::{open, put, put_decimal, put_looking, put_more, put_signal, put_text, put_time};
use crash_signatures::{Signature, Word};
use group_tables::{GroupRow, certain_count, labels_of, last_time, newest, perhaps_count};
use std::alloc::{AllocError, Global};

// How many groups have a row at most.
const MOST: usize = 40;

// How many labels of a group are shown at most.
const LABELS: usize = 2;

// Puts a row for each of the first groups. It shows when the group's cores came by the bars of the plot, if there is one.
pub(crate) fn put_groups(
    alloc: Global,
    page: &mut Page,
    rows: &[GroupRow<'_>],
    latest: u64,
    span: Option<Span>,
    numbers: &[u32],
) -> Result<(), AllocError> {
    page.open(Tag::Section, &[]);
    page.open(Tag::H2, &[]);
    page.text(b"What crashed");
    put(
        page,
        Tag::Small,
        b" cores with the same program, signal and frames are one row; + those that stopped at the same place, and whose frames are missing",
    );
    page.close();
    open(page, Tag::Div, "scroll");
    open(page, Tag::Table, "groups");
    put_headings(page);
    page.open(Tag::Tbody, &[]);
    let (first, others) = rows.split_at(rows.len().min(MOST));
    for row in first {
        put_row(alloc, page, row, latest, span, numbers)?;
    }
    page.close();
    page.close();
    page.close();
    put_others(page, others.len());
    page.close();
    Ok(())
}

fn put_others(page: &mut Page, count: usize) {
    if count > 0 {
        open(page, Tag::P, "dim");
        put_more(page, count);
        page.close();
    }
}

fn put_headings(page: &mut Page) {
    page.open(Tag::Thead, &[]);
    page.open(Tag::Tr, &[]);
    put(page, Tag::Th, b"Cores");
    put(page, Tag::Th, b"When");
    put(page, Tag::Th, b"Last");
    put(page, Tag::Th, b"Signal and program");
    put(page, Tag::Th, b"Frames, innermost first");
    put(page, Tag::Th, b"Hosts");
    put(page, Tag::Th, b"Newest");
    page.close();
    page.close();
}

fn put_row(
    alloc: Global,
    page: &mut Page,
    row: &GroupRow<'_>,
    latest: u64,
    span: Option<Span>,
    numbers: &[u32],
) -> Result<(), AllocError> {
    let labels = labels_of(alloc, &row.members)?;
    page.open(Tag::Tr, &[]);
    put_count(page, row);
    page.open(Tag::Td, &[]);
    if let Some(span) = span {
        put_spark(alloc, page, row, latest, span)?;
    }
    page.close();
    open(page, Tag::Td, "time");
    put_time(page, last_time(latest, &row.members));
    page.close();
    put_program(page, row);
    open(page, Tag::Td, "chain");
    put_signature(page, &row.crash.signature);
    page.close();
    open(page, Tag::Td, "hosts");
    put_labels(page, &labels);
    page.close();
    open(page, Tag::Td, "num");
    put_newest(page, newest(&row.members), numbers);
    page.close();
    page.close();
    Ok(())
}

fn put_count(page: &mut Page, row: &GroupRow<'_>) {
    open(page, Tag::Td, "num");
    open(page, Tag::Span, "big");
    put_decimal(page, certain_count(&row.members) as u64);
    page.close();
    let perhaps = perhaps_count(&row.members);
    if perhaps > 0 {
        open(page, Tag::Span, "dim");
        page.text(b"+");
        put_decimal(page, perhaps as u64);
        page.close();
    }
    page.close();
}

fn put_program(page: &mut Page, row: &GroupRow<'_>) {
    page.open(Tag::Td, &[]);
    page.open(Tag::B, &[]);
    put_signal(page, row.crash.signal);
    page.close();
    open(page, Tag::Div, "path");
    put_text(page, &row.crash.program);
    page.close();
    page.close();
}

fn put_signature(page: &mut Page, signature: &Signature) {
    for (at, word) in signature.words.iter().enumerate() {
        put_separator(page, at);
        put_word(page, word);
    }
    if signature.is_missing {
        put_looking(page, Tag::Span, "dim", b" ..");
    }
}

// Puts the separator between two frames.
pub(crate) fn put_separator(page: &mut Page, at: usize) {
    if at > 0 {
        put_looking(page, Tag::Span, "sep", b"<");
    }
}

fn put_word(page: &mut Page, word: &Word) {
    open(
        page,
        Tag::Code,
        if word.is_mark { "tok mark" } else { "tok" },
    );
    put_text(page, word.text.as_slice());
    page.close();
}

fn put_labels(page: &mut Page, labels: &[&[u8]]) {
    let (first, others) = labels.split_at(labels.len().min(LABELS));
    for (at, label) in first.iter().enumerate() {
        if at > 0 {
            page.text(b", ");
        }
        put_text(page, label);
    }
    if !others.is_empty() {
        page.text(b" +");
        put_decimal(page, others.len() as u64);
    }
}

// Puts the number of a case, as a link if the case is on the page.
fn put_newest(page: &mut Page, number: u32, numbers: &[u32]) {
    if numbers.contains(&number) {
        page.open(
            Tag::A,
            &[Attribute {
                name: AttributeName::Href,
                value: Value::LinkToCase(number),
            }],
        );
        put_decimal(page, u64::from(number));
        page.close();
    } else {
        put_decimal(page, u64::from(number));
    }
}
