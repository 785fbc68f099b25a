// The parts of a page before and after its content.
use crate::attributes::{Attribute, AttributeName, Value};
use crate::page::Page;
use crate::style::STYLE;
use crate::tags::Tag;
use crate::texts::{open, put_decimal, put_text};

// The content that a browser may load for the page: its own style alone.
const POLICY: &str = "default-src 'none'; style-src 'unsafe-inline'";

/// Starts a page: of these cases of an archive, or of the archive itself, if there are no cases.
pub fn put_head(page: &mut Page, archive: &[u8], cases: &[u32]) {
    page.open(Tag::Html, &[constant(AttributeName::Lang, "en")]);
    page.open(Tag::Head, &[]);
    page.open(Tag::Meta, &[constant(AttributeName::Charset, "utf-8")]);
    put_meta(
        page,
        constant(AttributeName::Name, "viewport"),
        "width=device-width,initial-scale=1",
    );
    put_meta(
        page,
        constant(AttributeName::HttpEquiv, "Content-Security-Policy"),
        POLICY,
    );
    page.open(Tag::Title, &[]);
    put_title(page, archive, cases);
    page.close();
    page.open(Tag::Style, &[]);
    for piece in &STYLE {
        page.style(piece);
    }
    page.close();
    page.close();
    page.open(Tag::Body, &[]);
    page.open(Tag::Main, &[]);
    open(page, Tag::Header, "top");
    page.open(Tag::H1, &[]);
    put_title(page, archive, cases);
    page.close();
}

fn constant(name: AttributeName, value: &'static str) -> Attribute {
    Attribute {
        name,
        value: Value::Constant(value),
    }
}

fn put_meta(page: &mut Page, name: Attribute, content: &'static str) {
    page.open(
        Tag::Meta,
        &[name, constant(AttributeName::Content, content)],
    );
}

fn put_title(page: &mut Page, archive: &[u8], cases: &[u32]) {
    if cases.is_empty() {
        page.text(b"Crashes in ");
    } else {
        put_numbers(page, cases);
        page.text(b" of ");
    }
    put_text(page, archive);
}

fn put_numbers(page: &mut Page, cases: &[u32]) {
    page.text(if cases.len() > 1 { b"Cases" } else { b"Case" });
    for (at, case) in cases.iter().enumerate() {
        page.text(if at > 0 { b", " } else { b" " });
        put_decimal(page, u64::from(*case));
    }
}

/// Ends a page, by the archive and the highest number of a case in it.
pub fn put_foot(page: &mut Page, archive: &[u8], last: u32) {
    page.open(Tag::Footer, &[]);
    page.text(b"corekeep, archive ");
    put_text(page, archive);
    page.text(b", the highest number is ");
    put_decimal(page, u64::from(last));
    page.close();
}
