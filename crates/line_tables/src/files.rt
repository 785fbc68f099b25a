// The paths of source files.
ghost use Rattle.std.specs.Prelude.{◌≡◌, slice_get};
ghost use Rattle.std.specs.Option.{option_map};
ghost use Rattle.line_tables.specs.Chain.{viewed};
ghost use Rattle.line_tables.specs.EntryWords.{entry_view, list_view};
ghost use Rattle.line_tables.specs.Files as spec;
ghost use Rattle.line_tables.specs.HeaderWords.{header_view};
ghost use Rattle.line_tables.specs.RowWords.{step_view};

use crate::entries::{Entries, Entry, file_format};
use crate::faults::LineField;
use crate::forms::Strings;
use crate::header::Header;
use crate::instructions::{Instruction, Step};
use crate::steps::Steps;

/// The path of a source file: the parts that are not empty, in this order, with `/` between them.
#[derive(Clone, Copy)]
pub struct FilePath<'a> {
    /// The directory that the directory is in: that of the compilation, if it is known and the directory is not absolute.
    pub base: &'a [u8],
    /// The directory.
    pub directory: &'a [u8],
    /// The name of the file, or its whole path if that is absolute.
    pub name: &'a [u8],
}

/// The file name that a step adds.
fn added<'a>(step: &Result<Step<'a>, LineField>) -> Option<Entry<'a>>
    ensures { option_map entry_view result ≡ spec.added_by (viewed step_view step.now) }
{
    let Ok(step) = step else {
        return None;
    };
    let Instruction::DefineFile = step.instruction else {
        return None;
    };
    let strings = Strings {
        debug_line_str: &[],
        debug_str: &[],
    };
    let (entry, _) = Entry::read(&strings, &file_format(), step.content)?;
    Some(entry)
}

/// Whether a path begins with `/`.
fn is_absolute(path: &[u8]) -> bool
    ensures { result ≡ spec.is_absolute path.now }
{
    match path.first() {
        Some(first) => *first == b'/',
        None => false,
    }
}

impl<'a> FilePath<'a> {
    ghost use Rattle.line_tables.specs.FileWords.{path_view};

    /// Whether the path, as a text, begins with `/`.
    pub(crate) fn is_absolute(&self) -> bool
        ensures { result ≡ spec.is_absolute (spec.text_of (path_view self.now)) }
    {
        if !self.base.is_empty() {
            return is_absolute(self.base);
        }
        if !self.directory.is_empty() {
            return is_absolute(self.directory);
        }
        is_absolute(self.name)
    }

    /// The path of a name that is in a numbered directory of version 5.
    #[tactic(auto, unfolding(crate::specs::Files::numbered_path))]
    fn numbered(directories: &Entries<'a>, entry: &Entry<'a>) -> Option<FilePath<'a>>
        ensures { option_map path_view result ≡ spec.numbered_path (list_view directories.now) (entry_view entry.now) }
    {
        let directory = directories.nth(entry.folder)?.text;
        if entry.folder == 0 || is_absolute(directory) {
            return Some(FilePath {
                base: &[],
                directory,
                name: entry.text,
            });
        }
        let base = directories.nth(0)?.text;
        Some(FilePath {
            base,
            directory,
            name: entry.text,
        })
    }

    /// The path of a name that is in a directory of versions 2 to 4.
    #[tactic(auto, unfolding(crate::specs::Files::listed_path))]
    fn listed(directories: &Entries<'a>, entry: &Entry<'a>) -> Option<FilePath<'a>>
        ensures { option_map path_view result ≡ spec.listed_path (list_view directories.now) (entry_view entry.now) }
    {
        if entry.folder == 0 {
            return Some(FilePath {
                base: &[],
                directory: &[],
                name: entry.text,
            });
        }
        let directory = directories.nth(entry.folder - 1)?.text;
        Some(FilePath {
            base: &[],
            directory,
            name: entry.text,
        })
    }
}

impl<'a> Header<'a> {
    ghost use Rattle.line_tables.specs.FileWords.{path_view};

    /// The file name of a number, from 0 on, among those that the program adds.
    fn added_file(&self, number: u64) -> Option<Entry<'a>>
        ensures { option_map entry_view result ≡ slice_get (spec.added_files (header_view self.now)) number }
    {
        let mut left = number;
        let mut steps = Steps {
            version: self.version,
            machine: self.machine,
            rest: self.program,
        };
        while let Some(step) = steps.next() {
            let Some(entry) = added(&step) else {
                continue;
            };
            if left == 0 {
                return Some(entry);
            }
            left -= 1;
        }
        None
    }

    /// The entry of a file.
    #[tactic(auto, unfolding(crate::specs::Files::file_entry, crate::specs::Files::listed_file))]
    fn file_entry(&self, number: u64) -> Option<Entry<'a>>
        ensures { option_map entry_view result ≡ spec.file_entry (header_view self.now) number }
    {
        if self.version == 5 {
            return self.lists.files.nth(number);
        }
        if number == 0 {
            return None;
        }
        if number - 1 < self.lists.files.count {
            return self.lists.files.nth(number - 1);
        }
        self.added_file(number - 1 - self.lists.files.count)
    }

    /// The path of a file, by its number in a row. `None` if no file
    /// or no directory has that number, or if the file has no name.
    #[tactic(auto, unfolding(crate::specs::Files::file_path, crate::specs::Files::path_of))]
    pub fn file_path(&self, number: u64) -> Option<FilePath<'a>>
        ensures { option_map path_view result ≡ spec.file_path (header_view self.now) number }
    {
        let entry = self.file_entry(number)?;
        if entry.text.is_empty() {
            return None;
        }
        if is_absolute(entry.text) {
            return Some(FilePath {
                base: &[],
                directory: &[],
                name: entry.text,
            });
        }
        if self.version == 5 {
            FilePath::numbered(&self.lists.directories, &entry)
        } else {
            FilePath::listed(&self.lists.directories, &entry)
        }
    }
}
