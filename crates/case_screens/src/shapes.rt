// The forms of rows: the kind of each of their words.
use script_words::Words;

// The kind of a word of a row.
#[derive(Clone, Copy, PartialEq, Eq)]
pub(crate) enum FieldKind {
    // A number, or a word. `-` and `?` stand for nothing.
    Word,
    // A text as a script prints it. `-` stands for nothing.
    Text,
    // A place in a function. `?` stands for nothing.
    Place,
    // Hexadecimal digits. `-` stands for nothing.
    Digits,
    // A type of the auxiliary vector.
    Auxv,
}

// A field of a row.
#[derive(Clone, Copy)]
pub(crate) struct Field<'a> {
    pub(crate) name: &'a str,
    pub(crate) kind: FieldKind,
}

// The field that a word of a form is; `None` if it is a word that the row has as it is.
pub(crate) fn field_of(word: &str) -> Option<Field<'_>> {
    let inner = word.strip_prefix("<")?.strip_suffix(">")?;
    Some(match inner.split_once(':') {
        Some((name, "text")) => Field {
            name,
            kind: FieldKind::Text,
        },
        Some((name, "place")) => Field {
            name,
            kind: FieldKind::Place,
        },
        Some((name, "auxv")) => Field {
            name,
            kind: FieldKind::Auxv,
        },
        Some((name, _)) => Field {
            name,
            kind: FieldKind::Digits,
        },
        None => Field {
            name: inner,
            kind: FieldKind::Word,
        },
    })
}

// Whether a line is of this form: it has as many words, and those that are no fields.
pub(crate) fn is_of_form(line: &[u8], form: &str) -> bool {
    let mut words = Words::new(line);
    for part in form.split(' ') {
        match words.next() {
            Some(word) if fits(word, part) => {}
            _ => return false,
        }
    }
    words.next().is_none()
}

fn fits(word: &[u8], part: &str) -> bool {
    field_of(part).is_some() || word == part.as_bytes()
}

// The first of these forms that a line has.
pub(crate) fn form_of<'a>(line: &[u8], forms: &[&'a str]) -> Option<&'a str> {
    for form in forms {
        if is_of_form(line, form) {
            return Some(*form);
        }
    }
    None
}
