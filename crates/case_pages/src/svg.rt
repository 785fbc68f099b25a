// The parts of pictures. Places and lengths are in tenths of a pixel.
use crate::attributes::{Attribute, AttributeName, Value};
use crate::page::Page;
use crate::tags::Tag;
use crate::texts::class;

// A place or a length.
pub(crate) fn tenths(name: AttributeName, value: u64) -> Attribute {
    Attribute {
        name,
        value: Value::Tenths(value),
    }
}

// Starts a picture that is so many pixels wide and high, with this text for readers who don't see it.
pub(crate) fn begin_picture(
    page: &mut Page,
    look: &'static str,
    width: u64,
    height: u64,
    label: &'static str,
) {
    page.open(
        Tag::Svg,
        &[
            class(look),
            Attribute {
                name: AttributeName::ViewBox,
                value: Value::Box(width, height),
            },
            Attribute {
                name: AttributeName::Role,
                value: Value::Constant("img"),
            },
            Attribute {
                name: AttributeName::AriaLabel,
                value: Value::Constant(label),
            },
        ],
    );
}

// Puts a line from one place to another.
pub(crate) fn put_line(page: &mut Page, look: &'static str, from: (u64, u64), to: (u64, u64)) {
    page.open(
        Tag::Line,
        &[
            class(look),
            tenths(AttributeName::X1, from.0),
            tenths(AttributeName::X2, to.0),
            tenths(AttributeName::Y1, from.1),
            tenths(AttributeName::Y2, to.1),
        ],
    );
    page.close();
}

// Begins a rectangle from a place on, of this width and height.
pub(crate) fn begin_box(page: &mut Page, look: &'static str, at: (u64, u64), size: (u64, u64)) {
    page.open(
        Tag::Rect,
        &[
            class(look),
            tenths(AttributeName::X, at.0),
            tenths(AttributeName::Y, at.1),
            tenths(AttributeName::Width, size.0),
            tenths(AttributeName::Height, size.1),
        ],
    );
}

// Begins a text at a place.
pub(crate) fn begin_words(page: &mut Page, look: &'static str, at: (u64, u64)) {
    page.open(
        Tag::Text,
        &[
            class(look),
            tenths(AttributeName::X, at.0),
            tenths(AttributeName::Y, at.1),
        ],
    );
}

// Puts a small triangle that points down to a place.
pub(crate) fn put_triangle(page: &mut Page, look: &'static str, at: (u64, u64)) {
    page.open(
        Tag::Path,
        &[
            class(look),
            Attribute {
                name: AttributeName::D,
                value: Value::Triangle(at.0, at.1),
            },
        ],
    );
    page.close();
}
