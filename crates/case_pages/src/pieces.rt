// The tags of a page.
ghost use Rattle.std.specs.Prelude.{◌≡◌, ◌++◌, OnOk};
ghost use Rattle.case_pages.specs.Escaping.{escape};
ghost use Rattle.case_pages.specs.Pieces as spec;

use crate::attributes::{Attribute, Value};
use crate::escape::push_text;
use crate::tags::Tag;
use script_words::print_decimal;
use std::alloc::AllocError;

// Puts the start tag of an element at the end of a page.
pub(crate) fn push_start(
    page: &mut Vec<u8>,
    tag: Tag,
    attributes: &[Attribute],
) -> Result<(), AllocError>
    ensures { OnOk result (page.new.items ≡ page.old.items ++ spec.start_text tag attributes.now) }
{
    page.extend_from_slice(b"<")?;
    page.extend_from_slice(tag.name())?;
    push_attributes(page, attributes)?;
    page.extend_from_slice(b">")
}

// Puts the end tag of an element at the end of a page.
pub(crate) fn push_end(page: &mut Vec<u8>, tag: Tag) -> Result<(), AllocError>
    ensures { OnOk result (page.new.items ≡ page.old.items ++ spec.end_text tag) }
{
    page.extend_from_slice(b"</")?;
    page.extend_from_slice(tag.name())?;
    page.extend_from_slice(b">")
}

fn push_attributes(page: &mut Vec<u8>, attributes: &[Attribute]) -> Result<(), AllocError>
    ensures { OnOk result (page.new.items ≡ page.old.items ++ spec.attributes_text attributes.now) }
{
    for attribute in attributes {
        push_attribute(page, attribute)?;
    }
    Ok(())
}

fn push_attribute(page: &mut Vec<u8>, attribute: &Attribute) -> Result<(), AllocError>
    ensures { OnOk result (page.new.items ≡ page.old.items ++ spec.attribute_text attribute.now) }
{
    page.extend_from_slice(b" ")?;
    page.extend_from_slice(attribute.name.name())?;
    page.extend_from_slice(b"=\"")?;
    push_value(page, attribute.value)?;
    page.extend_from_slice(b"\"")
}

fn push_value(page: &mut Vec<u8>, value: Value) -> Result<(), AllocError>
    ensures { OnOk result (page.new.items ≡ page.old.items ++ escape (spec.value_bytes value)) }
{
    match value {
        Value::Constant(text) => push_text(page, text.as_bytes()),
        Value::Number(number) => push_number(page, b"", number),
        Value::Tenths(tenths) => push_tenths(page, b"", tenths),
        Value::Case(number) => push_number(page, b"case-", u64::from(number)),
        Value::LinkToCase(number) => push_number(page, b"#case-", u64::from(number)),
        Value::Box(width, height) => push_box(page, width, height),
        Value::Triangle(right, down) => push_triangle(page, right, down),
    }
}

// Puts a number at the end, behind a text.
fn push_number(page: &mut Vec<u8>, front: &[u8], number: u64) -> Result<(), AllocError>
    ensures { OnOk result (page.new.items ≡ page.old.items ++ escape (front.now ++ spec.digits number)) }
{
    push_text(page, front)?;
    push_text(page, print_decimal(u128::from(number)).as_slice())
}

fn push_box(page: &mut Vec<u8>, width: u64, height: u64) -> Result<(), AllocError>
    ensures { OnOk result (page.new.items ≡ page.old.items ++ escape (spec.box_bytes width height)) }
{
    push_number(page, b"0 0 ", width)?;
    push_number(page, b" ", height)
}

// Puts a number of tenths at the end, behind a text.
fn push_tenths(page: &mut Vec<u8>, front: &[u8], tenths: u64) -> Result<(), AllocError>
    ensures { OnOk result (page.new.items ≡ page.old.items ++ escape (front.now ++ spec.tenths_bytes tenths)) }
{
    push_number(page, front, tenths / 10)?;
    push_number(page, b".", tenths % 10)
}

fn push_triangle(page: &mut Vec<u8>, right: u64, down: u64) -> Result<(), AllocError>
    ensures { OnOk result (page.new.items ≡ page.old.items ++ escape (spec.triangle_bytes right down)) }
{
    push_tenths(page, b"M", right)?;
    push_tenths(page, b" ", down)?;
    push_text(page, b"l-5 -7 h10 z")
}
