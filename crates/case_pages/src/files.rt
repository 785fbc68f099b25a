// The files that a core had mapped, and which of them are stored.
use crate::page::Page;
use crate::tags::Tag;
use crate::texts::{open, put, put_decimal, put_more, put_text};
use address_space::Attached;
use build_ids::has_name;
use build_replies::{BuildAnswer, ChosenFile};
use case_screens::{CoreAnswers, stored_number};
use journal_layout::Entry;
use script_words::print_hex_row;

// How many files are shown at most.
const MOST: usize = 200;

// How many bytes of a build ID are shown at most.
const ID_BYTES: usize = 8;

// Puts the files.
pub(crate) fn put_files(page: &mut Page, cases: &[Entry], answers: &CoreAnswers<'_, '_>) {
    let Some(rows) = answers.builds else {
        return;
    };
    page.open(Tag::H3, &[]);
    page.text(b"Files");
    put(
        page,
        Tag::Small,
        b" that were mapped, and the build of each",
    );
    page.close();
    open(page, Tag::Table, "files");
    page.open(Tag::Tbody, &[]);
    let (first, others) = rows.split_at(rows.len().min(MOST));
    for row in first {
        put_file(page, cases, row);
    }
    page.close();
    page.close();
    if !others.is_empty() {
        open(page, Tag::P, "dim");
        put_more(page, others.len());
        page.close();
    }
}

fn put_file(page: &mut Page, cases: &[Entry], row: &BuildAnswer<'_>) {
    page.open(Tag::Tr, &[]);
    open(page, Tag::Td, "path");
    put_text(page, row.front.name);
    page.close();
    page.open(Tag::Td, &[]);
    put_stored(page, cases, row);
    page.close();
    open(page, Tag::Td, "addr");
    if let Some(id) = row.front.id() {
        let (first, _) = id.split_at(id.len().min(ID_BYTES));
        page.text(print_hex_row(first).as_slice());
    }
    page.close();
    page.close();
}

fn put_stored(page: &mut Page, cases: &[Entry], row: &BuildAnswer<'_>) {
    match row.chosen {
        ChosenFile::ByBuild(file) | ChosenFile::ByPath(file) => {
            open(page, Tag::Span, "badge good");
            page.text(b"stored as case ");
            put_number(page, cases, file);
            page.close();
        }
        ChosenFile::Other(file) => {
            open(page, Tag::Span, "badge bad");
            page.text(b"case ");
            put_number(page, cases, file);
            page.text(b" is another build");
            page.close();
            put_command(page, row);
        }
        ChosenFile::Nothing => {
            open(page, Tag::Span, "badge warn");
            page.text(b"not stored");
            page.close();
            put_command(page, row);
        }
    }
}

// Puts the number of a case, if it is there.
fn put_number(page: &mut Page, cases: &[Entry], file: Attached<'_>) {
    match stored_number(cases, file.path) {
        Some(number) => put_decimal(page, u64::from(number)),
        None => page.text(b"?"),
    }
}

// Puts the command that stores a file: under its build, if the core has that, or under its name.
fn put_command(page: &mut Page, row: &BuildAnswer<'_>) {
    open(page, Tag::Code, "cmd");
    if has_build(row.front.id()) {
        page.text(b"corekeep store ARCHIVE FILE --build");
    } else {
        page.text(b"corekeep store ARCHIVE FILE --exec ");
        put_text(page, row.front.name);
    }
    page.close();
}

fn has_build(id: Option<&[u8]>) -> bool {
    match id {
        Some(id) => has_name(id),
        None => false,
    }
}
