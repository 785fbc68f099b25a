// The directories and file names of a line table.
ghost use Rattle.std.specs.Prelude.{◌≡◌};
ghost use Rattle.std.specs.Option.{option_map};
ghost use Rattle.line_tables.specs.EntryWords.{entry_view, format_view, list_view, strings_view};
ghost use Rattle.line_tables.specs.Entries as spec;

use crate::forms::{Kind, Strings, kind_of, number_value, opaque_value, text_value};
use call_frames::uleb;

/// The content type of a path.
const DW_LNCT_PATH: u64 = 1;

/// The content type of the number of a directory.
const DW_LNCT_DIRECTORY_INDEX: u64 = 2;

/// Which parts an entry has.
#[derive(Clone, Copy)]
pub(crate) struct Format<'a> {
    /// How many descriptions there are.
    pub(crate) count: u8,
    /// The bytes that begin with them.
    pub(crate) bytes: &'a [u8],
}

/// A directory or a file name.
#[derive(Clone, Copy)]
pub(crate) struct Entry<'a> {
    /// Its path, empty if it has none.
    pub(crate) text: &'a [u8],
    /// The number of its directory, 0 if it has none.
    pub(crate) folder: u64,
}

/// Entries one after another.
#[derive(Clone, Copy)]
pub(crate) struct Entries<'a> {
    pub(crate) strings: Strings<'a>,
    pub(crate) format: Format<'a>,
    /// How many there are.
    pub(crate) count: u64,
    /// The bytes that begin with them.
    pub(crate) bytes: &'a [u8],
}

/// A content type, its form, and the bytes after them.
#[tactic(auto, unfolding(crate::specs::Entries::description))]
fn description(bytes: &[u8]) -> Option<(u64, u64, &[u8])>
    ensures { option_map (λ r. (r.0, r.1, r.2.now)) result ≡ spec.description bytes.now }
{
    let (content, rest) = uleb(bytes)?;
    let (form, rest) = uleb(rest)?;
    Some((content, form, rest))
}

/// Whether a content type may have a form.
fn suits(content: u64, kind: Option<Kind>) -> bool
    ensures { result ≡ spec.suits content kind }
{
    match kind {
        None => false,
        Some(Kind::Text) => content != DW_LNCT_DIRECTORY_INDEX,
        Some(Kind::Number) => content != DW_LNCT_PATH,
        Some(Kind::Opaque) => content != DW_LNCT_PATH && content != DW_LNCT_DIRECTORY_INDEX,
    }
}

/// The bytes after as many descriptions, if each has a form that it may have.
pub(crate) fn behind_format(count: u8, bytes: &[u8]) -> Option<&[u8]>
    ensures { option_map (λ r. r.now) result ≡ spec.behind_format count bytes.now }
{
    let mut rest = bytes;
    for i in 0..count {
        let (content, form, behind) = description(rest)?;
        if !suits(content, kind_of(form)) {
            return None;
        }
        rest = behind;
    }
    Some(rest)
}

impl<'a> Entry<'a> {
    /// The entry, once a text of it is read.
    fn with_text(self, content: u64, text: &'a [u8]) -> Entry<'a>
        ensures { entry_view result ≡ spec.with_text content text.now (entry_view self.entry) }
    {
        if content == DW_LNCT_PATH {
            Entry {
                text,
                folder: self.folder,
            }
        } else {
            self
        }
    }

    /// The entry, once a number of it is read.
    fn with_folder(self, content: u64, number: u64) -> Entry<'a>
        ensures { entry_view result ≡ spec.with_folder content number (entry_view self.entry) }
    {
        if content == DW_LNCT_DIRECTORY_INDEX {
            Entry {
                text: self.text,
                folder: number,
            }
        } else {
            self
        }
    }

    /// The entry, once the part at the front is read, and the bytes after it.
    #[tactic(auto, unfolding(crate::specs::Entries::part))]
    fn with_part(
        self,
        strings: &Strings<'a>,
        content: u64,
        form: u64,
        bytes: &'a [u8],
    ) -> Option<(Entry<'a>, &'a [u8])>
        ensures { option_map (λ r. (entry_view r.0, r.1.now)) result
            ≡ spec.part (strings_view strings.now) content form (entry_view self.entry) bytes.now }
    {
        match kind_of(form)? {
            Kind::Text => {
                let (text, rest) = text_value(strings, form, bytes)?;
                Some((self.with_text(content, text), rest))
            }
            Kind::Number => {
                let (number, rest) = number_value(form, bytes)?;
                Some((self.with_folder(content, number), rest))
            }
            Kind::Opaque => {
                let (_, rest) = opaque_value(form, bytes)?;
                Some((self, rest))
            }
        }
    }

    /// The entry at the front, and the bytes after it.
    #[tactic(auto, unfolding(crate::specs::Entries::entry))]
    pub(crate) fn read(
        strings: &Strings<'a>,
        format: &Format<'_>,
        bytes: &'a [u8],
    ) -> Option<(Entry<'a>, &'a [u8])>
        ensures { option_map (λ r. (entry_view r.0, r.1.now)) result
            ≡ spec.entry (strings_view strings.now) (format_view format.now) bytes.now }
    {
        let mut entry = Entry {
            text: &[],
            folder: 0,
        };
        let mut rest = bytes;
        let mut descriptions = format.bytes;
        for i in 0..format.count {
            let (content, form, behind) = description(descriptions)?;
            let (next, after) = entry.with_part(strings, content, form, rest)?;
            entry = next;
            rest = after;
            descriptions = behind;
        }
        Some((entry, rest))
    }
}

/// The bytes after as many entries.
pub(crate) fn behind_entries<'a>(
    strings: &Strings<'a>,
    format: &Format<'_>,
    count: u64,
    bytes: &'a [u8],
) -> Option<&'a [u8]>
    ensures { option_map (λ r. r.now) result
        ≡ spec.behind_entries (strings_view strings.now) (format_view format.now) count bytes.now }
{
    let mut rest = bytes;
    for i in 0..count {
        let (_, behind) = Entry::read(strings, format, rest)?;
        rest = behind;
    }
    Some(rest)
}

impl<'a> Entries<'a> {
    /// The entry of a number, from 0 on.
    #[tactic(auto, unfolding(crate::specs::Entries::nth))]
    pub(crate) fn nth(&self, number: u64) -> Option<Entry<'a>>
        ensures { option_map entry_view result ≡ spec.nth (list_view self.now) number }
    {
        if number >= self.count {
            return None;
        }
        let bytes = behind_entries(&self.strings, &self.format, number, self.bytes)?;
        let (entry, _) = Entry::read(&self.strings, &self.format, bytes)?;
        Some(entry)
    }
}

/// The format of file names in versions 2 to 4.
pub(crate) fn file_format<'a>() -> Format<'a>
    ensures { format_view result ≡ spec.file_format }
{
    Format {
        count: 4,
        bytes: &[1, 0x08, 2, 0x0f, 3, 0x0f, 4, 0x0f],
    }
}
