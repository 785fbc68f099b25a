// The source lines of frames.
ghost use Rattle.std.specs.Prelude.{◌≡◌, IfOk, OnOk, Some, map};
ghost use Rattle.std.specs.Option.{option_map};
ghost use Rattle.script_streams.specs.Replies.{PrintsText, printing};
ghost use Rattle.address_space.specs.SourceWords.{spot_view};
ghost use Rattle.address_space.specs.SpaceWords.{space_of};
ghost use Rattle.image_replies.specs.Lines.{numbered_lines};
ghost use Rattle.frame_replies.specs.LineWords.{source_view};
ghost use Rattle.memory_replies.specs.NamingWords.{named_file};
ghost use Rattle.frame_replies.specs.FrameSources as spec;
ghost use Rattle.frame_replies.specs.FrameValues.{frame_view};
ghost use Rattle.frame_replies.specs.LastSource as kept;
ghost use Rattle.frame_replies.specs.ProcessWords.{named_in};
ghost use Rattle.frame_replies.specs.SourceWords as words;

use crate::lines::print_frame_place;
use crate::process::UnwoundProcess;
use crate::source::{NoTables, line_source};
use crate::source_executable::SourceExecutable;
use crate::source_line::SourceLine;
use crate::source_reader::SourceReader;
use crate::values::FrameAnswer;
use address_space::FileSpot;
use memory_replies::{NamedExecutable, of_path, print_hex_word};
use script_streams::{Output, Reply};
use std::alloc::{AllocError, Global};
use symbols::vaddr_of_offset;

impl<'n, 'e> SourceExecutable<'n, 'e> {
    /// Reads the line tables of an executable. The error is that there is no memory.
    fn read(
        alloc: Global,
        named: &'n NamedExecutable<'e>,
    ) -> Result<SourceExecutable<'n, 'e>, AllocError>
        ensures { IfOk result (λ s. kept.source_file s ≡ named_file named.now) }
    {
        let sections = match line_source(alloc, named.elf(), named.debug_image()) {
            Ok(sections) => Some(sections),
            Err(NoTables::OutOfMemory) => return Err(AllocError),
            Err(NoTables::Compressed | NoTables::Missing) => None,
        };
        Ok(SourceExecutable { named, sections })
    }

    /// The source line of the code at an offset of the executable. The error is that there is no memory.
    #[tactic(auto, unfolding(crate::specs::FrameSources::source_in))]
    fn source_in(&self, alloc: Global, offset: u64) -> Result<Option<SourceLine>, AllocError>
        ensures { IfOk result (λ line. option_map source_view line ≡ spec.source_in offset (kept.source_file self.now)) }
    {
        let Some(address) = vaddr_of_offset(self.named.elf(), offset) else {
            return Ok(None);
        };
        let Some(sections) = &self.sections else {
            return Ok(None);
        };
        Ok(sections.source_at(alloc, address)?.ok())
    }
}

impl<'n, 'e> SourceReader<'n, 'e> {
    /// Whether the line tables that stay are those of the executable of that path.
    fn has(&self, path: &[u8]) -> bool
        ensures { result ≡ kept.is_last path.now self.now.last }
    {
        match &self.last {
            Some(last) => last.named.path() == path,
            None => false,
        }
    }

    /// Reads the line tables of an executable, unless they stay.
    fn read(&mut self, alloc: Global, named: &'n NamedExecutable<'e>) -> Result<(), AllocError>
        requires { kept.IsFirst (map named_file self.old.images.now) (named_file named.now) }
        ensures images { self.new.images.now ≡ self.old.images.now }
        ensures last { OnOk result (option_map kept.source_file self.new.last ≡ Some (named_file named.now)) }
    {
        if self.has(named.path()) {
            return Ok(());
        }
        self.last = None;
        self.last = Some(SourceExecutable::read(alloc, named)?);
        Ok(())
    }

    /// The source line of the code at a place of a mapped file. The error is that there is no memory.
    fn source_at(
        &mut self,
        alloc: Global,
        spot: FileSpot<'_>,
    ) -> Result<Option<SourceLine>, AllocError>
        ensures images { self.new.images.now ≡ self.old.images.now }
        ensures line { IfOk result (λ line. option_map source_view line ≡ spec.source_at_spot (map named_file self.old.images.now) (spot_view spot.entry)) }
    {
        let Some(named) = of_path(self.images, spot.name) else {
            return Ok(None);
        };
        self.read(alloc, named)?;
        match &self.last {
            Some(last) => last.source_in(alloc, spot.offset),
            None => Ok(None),
        }
    }
}

impl<'p, 'a, 'e> UnwoundProcess<'p, 'a, 'e> {
    /// The source line of the address that is looked up for a frame, by the line tables of the executable that is used for its mapped
    /// file, or of the debug file of that; none for the code to which a signal handler returns. The error is that there is no memory.
    #[tactic(auto, unfolding(crate::specs::FrameSources::frame_source, crate::specs::FrameSources::source_of_address))]
    fn source_of(
        &self,
        alloc: Global,
        reader: &mut SourceReader<'_, '_>,
        frame: &FrameAnswer<'_>,
    ) -> Result<Option<SourceLine>, AllocError>
        ensures images { reader.new.images.now ≡ reader.old.images.now }
        ensures source { IfOk result (λ line. option_map source_view line ≡ spec.frame_source (space_of self.now.space).files (map named_file reader.old.images.now) (frame_view frame.now)) }
    {
        if frame.signal {
            return Ok(None);
        }
        let Some(address) = frame.looked_up else {
            return Ok(None);
        };
        match self.space.spot(address) {
            Some(spot) => reader.source_at(alloc, spot),
            None => Ok(None),
        }
    }

    /// The source line of each of these frames. `None` where it is not known. The error is that there is no memory.
    pub(crate) fn sources(
        &self,
        alloc: Global,
        frames: &[FrameAnswer<'_>],
    ) -> Result<Vec<Option<SourceLine>>, AllocError>
        ensures { IfOk result (λ all. map (option_map source_view) all.items
            ≡ map (spec.frame_source (space_of self.now.space).files (named_in self.now.executables.now.images)) (map frame_view frames.now)) }
    {
        let mut reader = SourceReader {
            images: &self.executables.images,
            last: None,
        };
        let mut all = Vec::with_capacity(alloc, frames.len())?;
        for frame in frames {
            all.push(self.source_of(alloc, &mut reader, frame)?)?;
        }
        Ok(all)
    }
}

/// The source line of a frame by its number, if it is known and among these, which are those of the first frames.
pub fn line_of(lines: &[Option<SourceLine>], frame: usize) -> Option<&SourceLine>
    ensures { option_map (λ line. source_view line.now) result ≡ spec.line_at (map (option_map source_view) lines.now) frame }
{
    match lines.get(frame) {
        Some(Some(line)) => Some(line),
        _ => None,
    }
}

/// Prints a source line, `FILE LINE`, or `? ?`.
fn print_source<O: Output>(reply: &mut Reply<'_, O>, line: Option<&SourceLine>)
    ensures { PrintsText (printing O.Output reply.old reply.new) (spec.source_words (option_map (λ line. source_view line.now) line.entry)) }
{
    match line {
        Some(line) => {
            reply.print_text(&line.file);
            reply.print(b" ");
            reply.print_decimal(u128::from(line.line));
        }
        None => reply.print(b"? ?"),
    }
}

/// Prints the line of a frame with its source line.
fn print_sourced<O: Output>(
    reply: &mut Reply<'_, O>,
    index: usize,
    frame: &FrameAnswer<'_>,
    line: Option<&SourceLine>,
)
    ensures { PrintsText (printing O.Output reply.old reply.new) (spec.source_line index (frame_view frame.now) (option_map (λ line. source_view line.now) line.entry)) }
{
    reply.print_decimal(index as u128);
    reply.print(b" ");
    print_hex_word(reply, frame.pc);
    print_frame_place(reply, frame);
    reply.print(b" ");
    print_source(reply, line);
    reply.print(b"\n");
}

/// Prints a line for each frame with its source line, the first being number 0.
pub(crate) fn print_source_lines<O: Output>(
    reply: &mut Reply<'_, O>,
    frames: &[FrameAnswer<'_>],
    lines: &[Option<SourceLine>],
)
    ensures { PrintsText (printing O.Output reply.old reply.new) (numbered_lines (words.sourced_line (map (option_map source_view) lines.now)) 0 frames.now) }
{
    for (index, frame) in frames.iter().enumerate() {
        print_sourced(reply, index, frame, line_of(lines, index));
    }
}
