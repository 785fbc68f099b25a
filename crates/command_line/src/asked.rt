// The request that the words make.
ghost use Rattle.std.specs.Prelude.{◌≡◌, ◌⊎◌, None, Some, IfOk, IfErr, OnOk, codes, map, string_bytes};
ghost use Rattle.archive_files.specs.declared.failures.Refusal.TheVariants.{BadLine};
ghost use Rattle.core_handler.specs.Fronts.{named_by};
ghost use Rattle.stream_names.specs.Template.{template_fault};
ghost use Rattle.stream_names.specs.declared.template.TemplateFault.{TemplateFault};
ghost use Rattle.std.specs.Option.{option_copied};
ghost use Rattle.command_words.specs.Words.{text_in, words_in};
ghost use Rattle.command_line.specs.Asking as asking;
ghost use Rattle.command_line.specs.Requesting.{IsUnspelled};

use crate::ask_words::{AskedLine, ask_words, check_all};
use crate::endings::Ending;
use crate::handle_words::{GivenHandle, handle_words};
use crate::list_words::list_words;
use crate::prune_words::prune_words;
use crate::store_words::{GivenStore, store_words};
use archive_files::{
    ArchivePath, BuildRequest, CopyWords, NewArchive, Refusal, Salvaged, ShapeWish, StoreRequest,
    WordPart,
};
use case_info::{GroupsWords, InfoWords, PruneWords, WantsWords};
use case_listing::{ListWords, SearchWords};
use command_words::{Given, is_text};
use core_handler::{HandleWords, SpoolWords};
use inspector_cli::Naming;
use journal_layout::Shape;
use retention::Policy;
use script_lines::Question;
use std::alloc::Global;
use stream_names::Template;

// The program's task. Files are named by their paths.
#[derive(Drop)]
pub(crate) enum Asked<'a> {
    // An archive in a new file.
    Format {
        archive: &'a str,
        wanted: NewArchive,
    },
    // A session over the archive in a file.
    Run {
        archive: ArchivePath<'a>,
        settings: SessionWords<'a>,
        // Executables are chosen by build.
        by_build: bool,
    },
    // A session over a fresh archive in memory.
    Memory {
        shape: Shape,
        settings: SessionWords<'a>,
        by_build: bool,
    },
    // A file as a case of an archive.
    Store {
        archive: ArchivePath<'a>,
        file: &'a str,
        // For how many seconds the input may give nothing, if that is bounded.
        stall: Option<u64>,
        request: StoreRequest,
        // Where its outcome is logged, if it is.
        log: Option<&'a str>,
        // The spool that a core goes to first, if there is one.
        spool: Option<SpoolWords<'a>>,
    },
    // A file under the name of its build, as a case of an archive.
    StoreBuild {
        archive: ArchivePath<'a>,
        file: &'a str,
        build: BuildRequest,
        // Where its outcome is logged, if it is.
        log: Option<&'a str>,
    },
    // The image of a case, in a new file or on the output.
    Extract {
        archive: ArchivePath<'a>,
        case: &'a str,
        file: Option<&'a str>,
    },
    // The digests of cases.
    Digest {
        archive: ArchivePath<'a>,
        cases: Vec<&'a str>,
    },
    // A case, its executables and the commands of a debugger, in a new directory.
    Unpack {
        archive: ArchivePath<'a>,
        case: &'a str,
        folder: &'a str,
    },
    // A core from the input, as a configuration says.
    Handle(HandleWords<'a>),
    // The cases of an archive, for people.
    List {
        archive: ArchivePath<'a>,
        wanted: ListWords<'a>,
    },
    // A case, or the archive, for people.
    Info {
        archive: ArchivePath<'a>,
        case: Option<&'a str>,
        wanted: InfoWords,
    },
    // The archive at this path as metrics.
    Metrics(&'a str),
    // The builds that a core wants, or all cores.
    Wants {
        archive: ArchivePath<'a>,
        case: Option<&'a str>,
        wanted: WantsWords,
    },
    // The cores that go by a policy, and the builds that no other core needs.
    Prune {
        archive: ArchivePath<'a>,
        wanted: PruneWords,
    },
    // The cases whose images have a text.
    Search {
        archive: ArchivePath<'a>,
        wanted: SearchWords<'a>,
    },
    // The cores that crashed alike.
    Groups {
        archive: ArchivePath<'a>,
        wanted: GroupsWords<'a>,
    },
    // A page of cases, or of the archive if no cases are named.
    Report {
        archive: ArchivePath<'a>,
        cases: Vec<&'a str>,
    },
    // The question of one line of a script, and its reply. Without a question its second word names a case.
    Ask {
        archive: ArchivePath<'a>,
        line: AskedLine<'a>,
        question: Option<Question>,
    },
    // Which cases `retire` would drop.
    WouldRetire {
        archive: ArchivePath<'a>,
        policy: Policy,
    },
    // The lines of the input that only look, and their replies.
    Look {
        archive: ArchivePath<'a>,
        by_build: bool,
    },
    // Whether an archive is sound.
    Check {
        archive: ArchivePath<'a>,
        sees_images: bool,
    },
    // An archive in a new file.
    Copy {
        archive: ArchivePath<'a>,
        new: &'a str,
        wanted: CopyWords,
    },
    // An archive of another size, in its place.
    Resize {
        archive: ArchivePath<'a>,
        wanted: CopyWords,
    },
    // The cases of a damaged archive in a new file.
    Salvage {
        archive: ArchivePath<'a>,
        new: Salvaged<'a>,
    },
    // Nothing.
    Nothing,
}

impl<'a> Asked<'a> {
    // The path of the file or the directory that is made, if one is.
    pub(crate) fn made(&self) -> Option<&'a str> {
        match self {
            Asked::Format { archive, .. } => Some(*archive),
            Asked::Extract { file, .. } => new_file(*file),
            Asked::Unpack { folder, .. } => Some(*folder),
            Asked::Copy { new, .. } => Some(*new),
            Asked::Salvage { new, .. } => Some(new.path),
            Asked::Resize { archive, .. } => Some(archive.path),
            _ => None,
        }
    }

    // The path of the archive that is read or changed, if one is.
    fn archive(&self) -> Option<&'a str> {
        match self {
            Asked::Run { archive, .. }
            | Asked::Store { archive, .. }
            | Asked::StoreBuild { archive, .. }
            | Asked::Extract { archive, .. }
            | Asked::Digest { archive, .. }
            | Asked::Unpack { archive, .. }
            | Asked::List { archive, .. }
            | Asked::Info { archive, .. }
            | Asked::Wants { archive, .. }
            | Asked::Prune { archive, .. }
            | Asked::Search { archive, .. }
            | Asked::Groups { archive, .. }
            | Asked::Report { archive, .. }
            | Asked::Ask { archive, .. }
            | Asked::WouldRetire { archive, .. }
            | Asked::Look { archive, .. }
            | Asked::Check { archive, .. }
            | Asked::Copy { archive, .. }
            | Asked::Resize { archive, .. }
            | Asked::Salvage { archive, .. } => Some(archive.path),
            Asked::Metrics(path) => Some(*path),
            Asked::Format { .. } | Asked::Memory { .. } | Asked::Handle(_) | Asked::Nothing => None,
        }
    }

    // The paths that the words give.
    pub(crate) fn paths(&self) -> Paths<'a> {
        Paths {
            archive: self.archive(),
            file: match self {
                Asked::Store { file, .. } | Asked::StoreBuild { file, .. } => Some(*file),
                _ => None,
            },
            made: self.made(),
        }
    }
}

// The paths that the words give, if they do.
#[derive(Clone, Copy)]
pub(crate) struct Paths<'a> {
    // The archive that is read or changed.
    pub(crate) archive: Option<&'a str>,
    // The file that is stored.
    pub(crate) file: Option<&'a str>,
    // The file or the directory that is made.
    pub(crate) made: Option<&'a str>,
}

// The settings of a session, as the words say them.
#[derive(Clone, Copy)]
pub(crate) struct SessionWords<'a> {
    pub(crate) template: &'a str,
    pub(crate) uses_pid: bool,
    // The most bytes of an image.
    pub(crate) limit: u64,
}

// The words as they were read.
#[derive(Drop)]
pub(crate) struct ReadWords<'a> {
    pub(crate) asked: Asked<'a>,
    // Nothing is to be shown meanwhile.
    pub(crate) is_quiet: bool,
    // Times are of this machine's zone.
    pub(crate) is_local: bool,
}

// The request that the words make.
pub(crate) fn read_words<'a>(alloc: Global, words: &'a [String]) -> Result<ReadWords<'a>, Ending>
    ensures { IfOk result (asking.AreAsked (map string_bytes words.now)) }
{
    let given = Given::read(alloc, words)?;
    Ok(ReadWords {
        asked: asked_of(alloc, &given)?,
        is_quiet: given.flag("quiet"),
        is_local: given.flag("local"),
    })
}

// The request that the words of a command make.
fn asked_of<'a>(alloc: Global, given: &Given<'a>) -> Result<Asked<'a>, Refusal>
    ensures { IfOk result (asking.IsAskedBy given.now) }
{
    match given.command {
        "format" => format_words(given),
        "memory" => Ok(Asked::Memory {
            settings: settings_of(given)?,
            shape: shape_of(given),
            by_build: given.flag("builds"),
        }),
        "handle" => {
            let given = GivenHandle::of(given, given.words.as_slice());
            Ok(Asked::Handle(handle_words(alloc, &given)?))
        }
        _ => over_archive(alloc, given, place_of(given)?),
    }
}

// The same of a command over the archive in a file.
fn over_archive<'a>(
    alloc: Global,
    given: &Given<'a>,
    archive: ArchivePath<'a>,
) -> Result<Asked<'a>, Refusal>
    ensures { IfOk result (asking.IsOver given.now archive.entry) }
{
    match given.command {
        "run" => Ok(Asked::Run {
            archive,
            settings: settings_of(given)?,
            by_build: given.flag("builds"),
        }),
        "store" => {
            let given = GivenStore::of(given, given.words.as_slice());
            store_words(alloc, &given, archive)
        }
        "extract" => Ok(Asked::Extract {
            archive,
            case: text_of(given, "case")?,
            file: text_if(given, "file")?,
        }),
        "digest" => Ok(Asked::Digest {
            archive,
            cases: cases_of(alloc, given)?,
        }),
        "unpack" => Ok(Asked::Unpack {
            archive,
            case: text_of(given, "case")?,
            folder: text_of(given, "dir")?,
        }),
        "list" => Ok(Asked::List {
            archive,
            wanted: list_words(given)?,
        }),
        "ask" => ask_words(alloc, given, archive),
        "info" => info_words(given, archive),
        "wants" => Ok(Asked::Wants {
            archive,
            case: text_if(given, "case")?,
            wanted: WantsWords {
                ids_alone: given.flag("ids"),
                is_json: given.flag("json"),
            },
        }),
        "report" => Ok(Asked::Report {
            archive,
            cases: cases_of(alloc, given)?,
        }),
        "groups" => Ok(Asked::Groups {
            archive,
            wanted: GroupsWords {
                case: text_if(given, "case")?,
                list: list_words(given)?,
            },
        }),
        "search" => Ok(Asked::Search {
            archive,
            wanted: SearchWords {
                text: text_of(given, "text")?,
                list: list_words(given)?,
            },
        }),
        "prune" => Ok(Asked::Prune {
            archive,
            wanted: prune_words(given)?,
        }),
        "look" => Ok(Asked::Look {
            archive,
            by_build: given.flag("builds"),
        }),
        "check" => Ok(Asked::Check {
            archive,
            sees_images: given.flag("images"),
        }),
        "copy" => Ok(Asked::Copy {
            archive,
            new: text_of(given, "new")?,
            wanted: copy_of(given),
        }),
        "resize" => Ok(Asked::Resize {
            archive,
            wanted: copy_of(given),
        }),
        "salvage" => Ok(Asked::Salvage {
            archive,
            new: Salvaged {
                path: text_of(given, "new")?,
                wish: wish_of(given),
            },
        }),
        _ => Ok(Asked::Nothing),
    }
}

// A case, or the archive: for people, as JSON, or the archive as metrics.
fn info_words<'a>(given: &Given<'a>, archive: ArchivePath<'a>) -> Result<Asked<'a>, Refusal>
    ensures asked { IfOk result (λ asked. given.now.command.now ≡ codes "info" → asking.IsOver given.now archive.entry asked) }
    ensures refused { IfErr result (λ why. (why ≡ BadLine) ⊎ IsUnspelled why) }
{
    let case = text_if(given, "case")?;
    if !given.flag("metrics") {
        return Ok(Asked::Info {
            archive,
            case,
            wanted: InfoWords {
                all_threads: given.flag("threads"),
                is_json: given.flag("json"),
            },
        });
    }
    match case {
        Some(_) => Err(Refusal::BadLine),
        None => Ok(Asked::Metrics(archive.path)),
    }
}

fn format_words<'a>(given: &Given<'a>) -> Result<Asked<'a>, Refusal>
    ensures asked { IfOk result (asking.IsFormat given.now) }
    ensures refused { IfErr result IsUnspelled }
{
    Ok(Asked::Format {
        archive: text_of(given, "archive")?,
        wanted: NewArchive {
            shape: shape_of(given),
            keeps_labels: keeps_labels(given),
            is_sparse: given.flag("sparse"),
        },
    })
}

// The known part of the shape of a damaged archive.
fn wish_of(given: &Given<'_>) -> ShapeWish
    ensures wish { asking.IsWish given.now result }
{
    ShapeWish {
        half_blocks: given.small_number("half"),
        data_blocks: given.small_number("data"),
    }
}

fn copy_of(given: &Given<'_>) -> CopyWords
    ensures { asking.IsCopy given.now result }
{
    CopyWords {
        half_blocks: given.small_number("half"),
        data_blocks: given.small_number("data"),
        keeps_labels: keeps_labels(given),
        is_sparse: given.flag("sparse"),
        drops_rights: given.flag("drop-rights"),
    }
}

// Whether the archive that is made is of the version that keeps labels.
fn keeps_labels(given: &Given<'_>) -> bool
    ensures { result ≡ asking.labels_said given.now }
{
    match given.number("layout") {
        Some(version) => version == 2,
        None => false,
    }
}

// The text of a word that must be there.
fn text_of<'a>(given: &Given<'a>, name: &str) -> Result<&'a str, Refusal>
    ensures same { IfOk result (λ text. text.now ≡ asking.text_said given.now name.now) }
    ensures refused { IfErr result IsUnspelled }
{
    checked(given.text(name).unwrap_or(""))
}

// The text of a word that may be left out.
pub(crate) fn text_if<'a>(given: &Given<'a>, name: &str) -> Result<Option<&'a str>, Refusal>
    ensures same { IfOk result (λ text. option_copied text ≡ text_in given.now name.now) }
    ensures refused { IfErr result IsUnspelled }
{
    match given.text(name) {
        Some(word) => Ok(Some(checked(word)?)),
        None => Ok(None),
    }
}

// The file that is to be made: none for `-`, the standard output.
pub(crate) fn new_file<'a>(file: Option<&'a str>) -> Option<&'a str> {
    match file {
        Some("-") => None,
        _ => file,
    }
}

// The words that may be there several times, each of which must be text.
fn cases_of<'a>(alloc: Global, given: &Given<'a>) -> Result<Vec<&'a str>, Refusal>
    ensures same { IfOk result (λ cases. map (λ case. case.now) cases.items ≡ words_in given.now) }
    ensures refused { IfErr result IsUnspelled }
{
    check_all(&given.words)?;
    match given.words.to_vec(alloc) {
        Ok(cases) => Ok(cases),
        Err(_) => Err(Refusal::OutOfMemory),
    }
}

// A word that must be text.
pub(crate) fn checked<'a>(word: &'a str) -> Result<&'a str, Refusal>
    ensures same { IfOk result (λ text. text.now ≡ word.entry.now) }
    ensures refused { IfErr result IsUnspelled }
{
    checked_part(word, WordPart::Other)
}

pub(crate) fn checked_part<'a>(word: &'a str, part: WordPart) -> Result<&'a str, Refusal>
    ensures same { IfOk result (λ text. text.now ≡ word.entry.now) }
    ensures refused { IfErr result IsUnspelled }
{
    if is_text(word) {
        Ok(word)
    } else {
        Err(Refusal::NotUtf8(part))
    }
}

fn place_of<'a>(given: &Given<'a>) -> Result<ArchivePath<'a>, Refusal>
    ensures place { IfOk result (asking.IsPlace given.now) }
    ensures refused { IfErr result IsUnspelled }
{
    Ok(ArchivePath {
        path: text_of(given, "archive")?,
        waits: !given.flag("no-wait"),
    })
}

fn shape_of(given: &Given<'_>) -> Shape
    ensures { asking.IsShape given.now result }
{
    Shape {
        half_blocks: given.small_number("half").unwrap_or(0),
        data_blocks: given.small_number("data").unwrap_or(0),
    }
}

fn settings_of<'a>(given: &Given<'a>) -> Result<SessionWords<'a>, Refusal>
    ensures settings { IfOk result (asking.AreSettings given.now) }
    ensures refused { IfErr result IsUnspelled }
{
    Ok(SessionWords {
        template: text_of(given, "template")?,
        uses_pid: given.flag("uses-pid"),
        limit: given.number("limit").unwrap_or(0),
    })
}

// How cases are named.
pub(crate) fn naming_of(settings: SessionWords<'_>, by_build: bool) -> Result<Naming, Refusal>
    ensures named { IfOk result (λ naming. naming ≡ asking.naming_by settings.entry by_build) }
    ensures sound { OnOk result (template_fault settings.entry.template.now ≡ None) }
    ensures refused { IfErr result (λ why. (fault : TemplateFault) × (template_fault settings.entry.template.now ≡ Some fault)) }
{
    let template = Template::parse(settings.template.as_bytes())?;
    Ok(Naming {
        template,
        uses_pid: settings.uses_pid,
        by_build,
    })
}
