// `store` over the archive on a disk.
ghost use Rattle.std.specs.Prelude.{◌≡◌, ℕ, List, None, Option, false, is_some};
ghost use Rattle.std.specs.Option.{option_map};
ghost use Rattle.std.specs.Io.KnownBytes.{Keeps};
ghost use Rattle.script_lines.specs.Said.{said};
ghost use Rattle.stream_names.specs.Commands.{stream_begun, stream_found};
ghost use Rattle.inspector_cli.specs.Session.{streams_of};
ghost use Rattle.inspector_cli.specs.Storing.{line_stream, options_asked};
ghost use Rattle.script_streams.specs.Replies.{PrintsText, printing};
ghost use Rattle.archive_files.specs.OverDisks.{StoresOnDisk, StoresFile, IsFitted, IsFittedBy, is_refused, is_too_long, name_found, named_as, reason_found, sparing, sparing_for, under_name, within_limit};
ghost use Rattle.archive_files.specs.Printing.{IsKeptAs};

use crate::collected::Collected;
use crate::failures::{Failure, Refusal};
use crate::outcomes::store_told;
use disk_model::Disk;
use inspector_cli::{Naming, NewStream, StoreOptions, line_stream, open_and_store};
use intake::Settings;
use retention::Policy;
use script_streams::{Input, Output, ReadInput, Reply};
use std::alloc::Global;
use std::io::{BufRead, BufReader, Read};

// How many bytes `store` asks for at a time.
const AHEAD: usize = 65_536;

/// The kind of case as which a file is stored.
#[derive(Drop)]
pub struct StoreWords {
    /// The order in which cases are retired first, if that is asked for.
    pub policy: Option<Policy>,
    /// The line of a script that begins the stream.
    pub begin: Vec<u8>,
    /// The other options.
    pub options: StoreOptions,
}

/// A stream to store, with its options. Whoever holds it may leave the policy out, and change nothing else.
#[derive(Drop)]
pub struct StoreRequest {
    // By which cases are retired first, if there is one.
    policy: Option<Policy>,
    // The stream, or why no stream could be begun.
    found: Result<NewStream, &'static [u8]>,
    // The other options.
    options: StoreOptions,
    // The most bytes of an image.
    limit: u64,
}

impl StoreRequest {
    /// The values of the words.
    pub fn of(words: StoreWords, naming: &Naming, limit: u64) -> Self
        ensures policy { result.policy ≡ words.policy }
        ensures found { stream_found result.found ≡ line_stream naming.now (said words.begin.items) }
        ensures options { result.options ≡ words.options }
        ensures limit { result.limit ≡ limit }
    {
        let StoreWords {
            policy,
            begin,
            options,
        } = words;
        StoreRequest {
            policy,
            found: line_stream(&begin, naming),
            options,
            limit,
        }
    }

    /// The same stream under the name of the executable that this line of a script begins, or why that line begins none.
    pub fn named(self, line: &[u8], naming: &Naming) -> Self
        ensures policy { result.policy ≡ self.policy }
        ensures found { stream_found result.found ≡ named_as (stream_found self.found) (line_stream naming.now (said line.now)) }
        ensures options { result.options ≡ self.options }
        ensures limit { result.limit ≡ self.limit }
    {
        StoreRequest {
            found: named_as(self.found, line_stream(line, naming)),
            ..self
        }
    }

    /// The most bytes of an image.
    pub fn limit(&self) -> u64
        ensures { result ≡ self.now.limit }
    {
        self.limit
    }

    /// Why no stream can begin, if none can.
    pub fn refusal(&self) -> Option<&'static [u8]>
        ensures { option_map (λ r. r.now) result ≡ reason_found (stream_found self.now.found) }
    {
        match &self.found {
            Ok(_) => None,
            Err(reason) => Some(*reason),
        }
    }

    /// The name of the case as it prints, or its kind if it has no name.
    pub fn printed_name(&self, alloc: Global) -> Collected
        ensures { IsKeptAs (⟦<Collected as Output>⟧.taken result) (⟦<Collected as Output>⟧.failures result) (name_found (stream_found self.now.found)) }
    {
        let mut name = Collected::new(alloc);
        let mut reply = Reply::new(&mut name);
        print_name(&mut reply, &self.found);
        let _ = reply.finish();
        name
    }

    /// Nothing is retired for a stream that can't be stored.
    pub fn without_retiring(self) -> Self
        ensures { result ≡ record self { policy = None } }
    {
        StoreRequest {
            policy: None,
            ..self
        }
    }

    /// Whether its case is to have a label.
    pub fn has_label(&self) -> bool
        ensures { result ≡ is_some self.now.options.label }
    {
        self.options.label.is_some()
    }

    /// How many bytes the stream has, if that is stated.
    pub fn stated_length(&self) -> Option<u64>
        ensures { result ≡ self.now.options.length }
    {
        self.options.length
    }

    /// The request for a stream of so many bytes, if that is known, in an archive whose data takes at most so many. No case goes for
    /// a stream that is refused whichever go.
    pub fn of_length(self, length: Option<u64>, most: Option<u64>) -> Self
        ensures { result ≡ sparing_for length most self }
    {
        match length {
            Some(length) if self.is_refused(length, most) => self.sparing(),
            _ => self,
        }
    }

    // No case goes.
    fn sparing(self) -> Self
        ensures { result ≡ sparing self }
    {
        StoreRequest {
            policy: None,
            options: StoreOptions {
                fit: false,
                ..self.options
            },
            ..self
        }
    }

    // A stream of so many bytes is refused, if the data of the archive takes at most so many. None is that may be cut.
    fn is_refused(&self, length: u64, most: Option<u64>) -> bool
        ensures { result ≡ is_refused length most self.now }
    {
        self.is_too_long(length)
            || self.options.cut.is_none()
                && (most.is_some_and(|most| length > most)
                    || self.options.length.is_some_and(|stated| stated != length))
    }

    // A stream of so many bytes is refused for its length. None is that may be cut.
    fn is_too_long(&self, size: u64) -> bool
        ensures { result ≡ is_too_long size self.now }
    {
        self.options.cut.is_none() && size > self.limit
    }

    // Nothing is retired if the first bytes of the file can't be read, or are more than an image may have and are not to be cut.
    fn fitted<F: FirstBytes>(self, file: &mut F) -> Self
        ensures fitted { IsFitted self result }
        ensures by { IsFittedBy (F.FirstBytes.begins file.old) self result }
        ensures same { Keeps (F.FirstBytes.left file.old) (F.FirstBytes.left file.new) }
    {
        if self.policy.is_none() {
            return self;
        }
        let Some(size) = file.first() else {
            return self.without_retiring();
        };
        if self.is_too_long(size) {
            self.without_retiring()
        } else {
            self
        }
    }
}

// A stream under the name of another.
fn named_as(
    found: Result<NewStream, &'static [u8]>,
    other: Result<NewStream, &'static [u8]>,
) -> Result<NewStream, &'static [u8]>
    ensures { stream_found result ≡ named_as (stream_found found.entry) (stream_found other.entry) }
{
    match (found, other) {
        (Ok(stream), Ok(other)) => Ok(renamed(stream, other)),
        (Err(reason), _) => Err(reason),
        (Ok(_), Err(reason)) => Err(reason),
    }
}

fn renamed(stream: NewStream, other: NewStream) -> NewStream
    ensures { stream_begun result ≡ under_name (stream_begun other).origin.name (stream_begun stream) }
{
    NewStream {
        kind: stream.kind,
        name: other.name,
        pid: stream.pid,
        signal: stream.signal,
        time: stream.time,
    }
}

// A file whose first bytes are examined. The functions that examine them are
// generic in it, so that they decide by nothing else, and their clauses say so.
trait FirstBytes {
    // Whether so many bytes may come first, or none that can be read.
    ghost begins: { Self → Option ℕ → Type 0 };

    // The bytes that are left, if they are known.
    ghost left: { Self → Option (List ℕ) };

    // How many bytes come first, if they can be read.
    fn first(&mut self) -> Option<u64>
        ensures begins { begins self.old result }
        ensures same { Keeps (left self.old) (left self.new) };
}

// A reader may begin in any way.
impl<I: BufRead> FirstBytes for I {
    ghost begins = { λ file first. Unit {0} };

    ghost left = { λ file. I.remaining file };

    fn first(&mut self) -> Option<u64> {
        match self.fill_buf() {
            Ok(first) => Some(first.len() as u64),
            Err(_) => None,
        }
    }
}

// The stream that may begin: the one that is found, unless its stated length is over the limit, and it is not to be cut.
#[tactic(auto, unfolding(crate::specs::OverDisks::within_limit))]
fn within_limit(
    found: Result<NewStream, &'static [u8]>,
    options: &StoreOptions,
    limit: u64,
) -> Result<NewStream, &'static [u8]>
    ensures { stream_found result ≡ within_limit (options_asked options.now) limit (stream_found found.entry) }
{
    match (found, options.length) {
        (Ok(_), Some(length)) if options.cut.is_none() && length > limit => Err(b"TooLong"),
        (found, _) => found,
    }
}

// Prints the name that was found, or the kind that has none.
fn print_name<O: Output>(reply: &mut Reply<'_, O>, found: &Result<NewStream, &'static [u8]>)
    ensures { PrintsText (printing O.Output reply.old reply.new) (name_found (stream_found found.now)) }
{
    match found {
        Ok(stream) => reply.print_text(stream.name.as_slice()),
        Err(_) => reply.print(b"a core"),
    }
}

/// Opens the archive on a disk, stores the bytes of a reader, and hands the disk back. The reader is read ahead: the archive takes
/// its blocks one by one, and one call of the operating system gives many of them. If cases are to be retired, the first bytes
/// are read before the archive is changed.
pub fn store_from<D: Disk, I: Read, O: Output>(
    alloc: Global,
    disk: D,
    request: StoreRequest,
    input: &mut I,
    output: &mut O,
) -> (Result<(), Failure>, D)
    ensures { StoresFile D.Disk request (I.remaining input.old) (O.taken output.old) (O.taken output.new) (O.failures output.old) (O.failures output.new) disk result.0 result.1 }
{
    let Ok(ahead) = BufReader::with_capacity(alloc, AHEAD, input) else {
        return (Err(Failure::Refused(Refusal::OutOfMemory)), disk);
    };
    let mut ahead = ahead;
    let request = request.fitted(&mut ahead);
    let mut file = ReadInput::new(ahead);
    store_retiring_first(alloc, disk, request, &mut file, output)
}

// Opens the archive on a disk, stores a stream in it, and hands the disk back.
fn store_retiring_first<D: Disk, I: Input, O: Output>(
    alloc: Global,
    disk: D,
    request: StoreRequest,
    file: &mut I,
    output: &mut O,
) -> (Result<(), Failure>, D)
    ensures { StoresOnDisk D.Disk request (streams_of I.Input O.Output file.old file.new output.old output.new) disk result.0 result.1 }
{
    let StoreRequest {
        policy,
        found,
        options,
        limit,
        ..
    } = request;
    let found = within_limit(found, &options, limit);
    let settings = Settings { limit };
    let (ended, disk) = open_and_store(
        alloc, disk, settings, policy, found, &options, file, output,
    );
    (store_told(ended), disk)
}
