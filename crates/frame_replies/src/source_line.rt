// Source lines as values.
ghost use Rattle.std.specs.Prelude.{◌≡◌, ◌++◌, IfOk, OnOk};
ghost use Rattle.std.specs.Option.{option_map};
ghost use Rattle.line_tables.specs.UnitFinding.{directory};
ghost use Rattle.line_tables.specs.FileWords.{path_view};
ghost use Rattle.line_tables.specs.Files.{text_of, with_slash};
ghost use Rattle.line_tables.specs.FindingWords.{line_view, tables_view};
ghost use Rattle.frame_replies.specs.Line as spec;
ghost use Rattle.frame_replies.specs.LineWords.{source_result};
ghost use Rattle.frame_replies.specs.LineSourceWords.{sections_view};

use crate::line_sections::LineSections;
use crate::source::bytes_or_none;
use line_tables::{Compilations, FilePath, Line, LineTables, NoLine};
use std::alloc::{AllocError, Global};

/// A source line.
#[derive(Drop)]
pub struct SourceLine {
    /// The path of the file.
    pub file: Vec<u8>,
    /// The number of the line.
    pub line: u32,
}

/// Puts a directory after the bytes of a path, with `/` after it if it is not empty. The error is that there is no memory.
fn push_directory(text: &mut Vec<u8>, directory: &[u8]) -> Result<(), AllocError>
    ensures { OnOk result (text.new.items ≡ text.old.items ++ with_slash directory.now) }
{
    if directory.is_empty() {
        return Ok(());
    }
    text.extend_from_slice(directory)?;
    text.push(b'/')?;
    Ok(())
}

/// The bytes of a path. The error is that there is no memory.
fn path_text(alloc: Global, path: &FilePath<'_>) -> Result<Vec<u8>, AllocError>
    ensures { IfOk result (λ text. text.items ≡ text_of (path_view path.now)) }
{
    let mut text = Vec::new(alloc);
    push_directory(&mut text, path.base)?;
    push_directory(&mut text, path.directory)?;
    text.extend_from_slice(path.name)?;
    Ok(text)
}

/// A copy of these bytes, if there are any. The error is that there is no memory.
fn owned(alloc: Global, bytes: Option<&[u8]>) -> Result<Option<Vec<u8>>, AllocError>
    ensures { IfOk result (λ copy. option_map (λ v. v.items) copy ≡ option_map (λ b. b.now) bytes.entry) }
{
    match bytes {
        Some(bytes) => Ok(Some(Vec::from_slice(alloc, bytes)?)),
        None => Ok(None),
    }
}

impl<'a> LineSections<'a> {
    /// The line tables in them.
    fn tables(&self) -> LineTables<'_>
        ensures { tables_view result ≡ (sections_view self.now).tables }
    {
        LineTables::new(
            self.lines.as_slice(),
            self.line_texts.as_slice(),
            self.texts.as_slice(),
        )
    }

    /// The directory of the compilation that the line table at a place comes from. The error is that there is no memory.
    fn directory(&self, alloc: Global, place: u64) -> Result<Option<Vec<u8>>, AllocError>
        ensures { IfOk result (λ found. option_map (λ d. d.items) found ≡ directory (sections_view self.now).compilations place) }
    {
        let info = bytes_or_none(alloc, &self.elf, b".debug_info")?;
        let abbreviations = bytes_or_none(alloc, &self.elf, b".debug_abbrev")?;
        let compilations = Compilations::new(
            info.as_slice(),
            abbreviations.as_slice(),
            self.texts.as_slice(),
        );
        owned(alloc, compilations.directory(place))
    }

    /// The directory of the compilation, if the path of a line is in it. The error is that there is no memory.
    fn directory_for(&self, alloc: Global, line: &Line<'_>) -> Result<Option<Vec<u8>>, AllocError>
        ensures { IfOk result (λ found. option_map (λ d. d.items) found ≡ spec.directory_for (sections_view self.now).compilations (line_view line.now)) }
    {
        match line.table {
            Some(place) => self.directory(alloc, place),
            None => Ok(None),
        }
    }

    /// The path of a line that was found, as one text. The error is that there is no memory.
    fn file_of(&self, alloc: Global, line: &Line<'_>) -> Result<Vec<u8>, AllocError>
        ensures { IfOk result (λ text. text.items ≡ text_of (spec.whole_line (sections_view self.now).compilations (line_view line.now)).file) }
    {
        match &self.directory_for(alloc, line)? {
            Some(directory) => path_text(alloc, &line.within(directory).file),
            None => path_text(alloc, &line.file),
        }
    }

    /// The source line of an address, or why there is none. The outer error is that there is no memory.
    #[tactic(auto, unfolding(crate::specs::Line::source_at))]
    pub fn source_at(
        &self,
        alloc: Global,
        address: u64,
    ) -> Result<Result<SourceLine, NoLine>, AllocError>
        ensures { IfOk result (λ found. source_result found ≡ spec.source_at (sections_view self.now) address) }
    {
        match self.tables().line_at(address) {
            Ok(line) => Ok(Ok(SourceLine {
                file: self.file_of(alloc, &line)?,
                line: line.line,
            })),
            Err(reason) => Ok(Err(reason)),
        }
    }
}
