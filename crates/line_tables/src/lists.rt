// The directories and file names of a header.
ghost use Rattle.std.specs.Prelude.{◌≡◌, length};
ghost use Rattle.std.specs.Option.{option_map};
ghost use Rattle.line_tables.specs.Chain.{viewed};
ghost use Rattle.line_tables.specs.Entries.{counted};
ghost use Rattle.line_tables.specs.EntryWords.{format_view, list_view, strings_view};
ghost use Rattle.line_tables.specs.Header as spec;
ghost use Rattle.line_tables.specs.HeaderWords.{lists_view};

use crate::entries::{Entries, Entry, Format, behind_entries, behind_format, file_format};
use crate::faults::LineField;
use crate::forms::Strings;
use crate::texts::first_byte;
use call_frames::uleb;

/// The fields of a list in version 5.
#[derive(Clone, Copy)]
pub(crate) struct ListFields {
    pub(crate) format_count: LineField,
    pub(crate) format: LineField,
    pub(crate) count: LineField,
    pub(crate) list: LineField,
}

/// The directories and the file names.
#[derive(Clone, Copy)]
pub(crate) struct Lists<'a> {
    pub(crate) directories: Entries<'a>,
    pub(crate) files: Entries<'a>,
}

/// How many entries there are, and the bytes after that number.
#[tactic(auto, unfolding(crate::specs::Header::count_in))]
fn count_in(formats: u8, limit: u64, bytes: &[u8]) -> Option<(u64, &[u8])>
    ensures { option_map (λ r. (r.0, r.1.now)) result ≡ spec.count_in formats limit bytes.now }
{
    let (count, rest) = uleb(bytes)?;
    if count != 0 && (formats == 0 || count > limit) {
        return None;
    }
    Some((count, rest))
}

/// How many entries there are before an empty text, and the bytes after it.
fn count_ended<'a>(format: &Format<'_>, bytes: &'a [u8]) -> Option<(u64, &'a [u8])>
    ensures { option_map (λ r. (r.0, r.1.now)) result ≡ counted (length bytes.now) 0 (format_view format.now) bytes.now }
{
    let strings = Strings {
        debug_line_str: &[],
        debug_str: &[],
    };
    let mut rest = bytes;
    for count in 0..bytes.len() {
        let (first, behind) = first_byte(rest)?;
        if first == 0 {
            return Some((count as u64, behind));
        }
        let (_, behind) = Entry::read(&strings, format, rest)?;
        rest = behind;
    }
    None
}

impl<'a> Entries<'a> {
    /// The list at the front in version 5, and the bytes after it.
    #[tactic(auto, unfolding(crate::specs::Header::described_list))]
    fn described(
        strings: &Strings<'a>,
        fields: &ListFields,
        limit: u64,
        bytes: &'a [u8],
    ) -> Result<(Entries<'a>, &'a [u8]), LineField>
        ensures { viewed (λ r. (list_view r.0, r.1.now)) result
            ≡ spec.described_list (strings_view strings.now) fields.now limit bytes.now }
    {
        let Some((count, rest)) = first_byte(bytes) else {
            return Err(fields.format_count);
        };
        let format = Format { count, bytes: rest };
        let Some(rest) = behind_format(count, rest) else {
            return Err(fields.format);
        };
        let Some((count, entries)) = count_in(count, limit, rest) else {
            return Err(fields.count);
        };
        let Some(rest) = behind_entries(strings, &format, count, entries) else {
            return Err(fields.list);
        };
        let list = Entries {
            strings: *strings,
            format,
            count,
            bytes: entries,
        };
        Ok((list, rest))
    }

    /// The list at the front in versions 2 to 4, and the bytes after it.
    #[tactic(auto, unfolding(crate::specs::Header::ended_list))]
    fn ended(format: Format<'a>, bytes: &'a [u8]) -> Option<(Entries<'a>, &'a [u8])>
        ensures { option_map (λ r. (list_view r.0, r.1.now)) result ≡ spec.ended_list (format_view format.entry) bytes.now }
    {
        let (count, rest) = count_ended(&format, bytes)?;
        let list = Entries {
            strings: Strings {
                debug_line_str: &[],
                debug_str: &[],
            },
            format,
            count,
            bytes,
        };
        Some((list, rest))
    }
}

impl<'a> Lists<'a> {
    /// The lists at the front in version 5.
    #[tactic(auto, unfolding(crate::specs::Header::described_lists))]
    fn described(strings: &Strings<'a>, limit: u64, bytes: &'a [u8]) -> Result<Lists<'a>, LineField>
        ensures { viewed lists_view result ≡ spec.described_lists (strings_view strings.now) limit bytes.now }
    {
        let directory_fields = ListFields {
            format_count: LineField::DirectoryEntryFormatCount,
            format: LineField::DirectoryEntryFormat,
            count: LineField::DirectoriesCount,
            list: LineField::Directories,
        };
        let file_fields = ListFields {
            format_count: LineField::FileNameEntryFormatCount,
            format: LineField::FileNameEntryFormat,
            count: LineField::FileNamesCount,
            list: LineField::FileNames,
        };
        let (directories, rest) = Entries::described(strings, &directory_fields, limit, bytes)?;
        let (files, _) = Entries::described(strings, &file_fields, limit, rest)?;
        Ok(Lists { directories, files })
    }

    /// The lists at the front in versions 2 to 4.
    #[tactic(auto, unfolding(crate::specs::Header::ended_lists))]
    fn ended(bytes: &'a [u8]) -> Result<Lists<'a>, LineField>
        ensures { viewed lists_view result ≡ spec.ended_lists bytes.now }
    {
        let directory_format = Format {
            count: 1,
            bytes: &[1, 0x08],
        };
        let Some((directories, rest)) = Entries::ended(directory_format, bytes) else {
            return Err(LineField::IncludeDirectories);
        };
        let Some((files, _)) = Entries::ended(file_format(), rest) else {
            return Err(LineField::FileNames);
        };
        Ok(Lists { directories, files })
    }

    /// The lists at the front.
    pub(crate) fn read(
        version: u8,
        strings: &Strings<'a>,
        limit: u64,
        bytes: &'a [u8],
    ) -> Result<Lists<'a>, LineField>
        ensures { viewed lists_view result ≡ spec.lists_in version (strings_view strings.now) limit bytes.now }
    {
        if version == 5 {
            Lists::described(strings, limit, bytes)
        } else {
            Lists::ended(bytes)
        }
    }
}
