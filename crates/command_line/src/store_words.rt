// The request that the words of `store` make.
ghost use Rattle.std.specs.Prelude.{◌≡◌, ◌⊎◌, true, false, None, Some, is_some, Ok, Err, IfOk, IfErr, if◌then◌else◌};
ghost use Rattle.std.specs.Option.{option_copied, option_map};
ghost use Rattle.archive_files.specs.declared.failures.Refusal.TheVariants.{BadLine};
ghost use Rattle.command_line.specs.Requesting as spec;

use crate::asked::{Asked, SessionWords, checked, naming_of};
use crate::begin_line::{core_line, valued_line};
use crate::named_words::NamedWords;
use archive_files::{ArchivePath, BuildRequest, Refusal, StoreRequest, StoreWords};
use arrayvec::ArrayVec;
use build_ids::has_name;
use core_handler::{SpoolWords, order_of, policy_within};
use inspector_cli::StoreOptions;
use retention::Policy;
use script_lines::{Call, Question, parse_question};
use script_words::{decode_hex, parse_number};
use std::alloc::Global;

// The words of `store` that say which file is stored, and how.
#[derive(Clone, Copy)]
pub(crate) struct GivenStore<'g, 'a> {
    file: &'a str,
    // The limits of the cases that stay.
    keep: Option<&'a str>,
    bytes: Option<&'a str>,
    before: Option<&'a str>,
    // The name of an executable.
    exec: Option<&'a str>,
    // The name of a core, instead of the one that the template gives.
    name: Option<&'a str>,
    // The known facts of a core.
    pairs: &'g [&'a str],
    label: Option<&'a str>,
    length: Option<&'a str>,
    digest: Option<&'a str>,
    stall: Option<&'a str>,
    // The bytes of a text are taken as they are.
    escapes: bool,
    pin: bool,
    fit: bool,
    fair: bool,
    cut: bool,
    // It is stored under the name of its build: one of this ID, or its debug file.
    build: bool,
    id: Option<&'a str>,
    is_debug: bool,
    settings: SessionWords<'a>,
    // Where the outcome is logged.
    log: Option<&'a str>,
    // The directory of the spool.
    spool: Option<&'a str>,
}

impl<'g, 'a> GivenStore<'g, 'a> {
    // The words under each name, beside these pairs.
    pub(crate) fn of<W: NamedWords<'a>>(words: &W, pairs: &'g [&'a str]) -> Self
        ensures given { spec.IsGiven W.NamedWords words.now result }
        ensures pairs { result.pairs.now ≡ pairs.entry.now }
    {
        GivenStore {
            file: words.word("file").unwrap_or(""),
            keep: words.word("keep"),
            bytes: words.word("bytes"),
            before: words.word("before"),
            exec: words.word("exec"),
            name: words.word("name"),
            pairs,
            label: words.word("label"),
            length: words.word("length"),
            digest: words.word("sha256"),
            stall: words.word("stall"),
            escapes: words.states("escape"),
            pin: words.states("pin"),
            fit: words.states("fit"),
            fair: words.states("fair"),
            cut: words.states("cut"),
            build: words.states("build"),
            id: words.word("id"),
            is_debug: words.states("debug"),
            settings: SessionWords {
                template: words.word("template").unwrap_or(""),
                uses_pid: words.states("uses-pid"),
                limit: words.count("limit"),
            },
            log: words.word("log"),
            spool: words.word("spool"),
        }
    }
}

// The request that the words of `store` make over this archive.
pub(crate) fn store_words<'a>(
    alloc: Global,
    given: &GivenStore<'_, 'a>,
    archive: ArchivePath<'a>,
) -> Result<Asked<'a>, Refusal>
    ensures asked { IfOk result (λ asked. spec.AsksOfStore given.now archive.entry asked) }
    ensures plain { given.now.build ≡ false → IfErr result (spec.IsRefused given.now) }
    ensures build { given.now.build ≡ true → IfErr result (spec.IsBuildRefused given.now) }
{
    let file = checked(given.file)?;
    if given.build {
        return Ok(Asked::StoreBuild {
            archive,
            file,
            build: build_of(alloc, given)?,
            log: given.log,
        });
    }
    let stall = number_of(given.stall)?;
    let request = request_of(alloc, given)?;
    let spool = spool_of(alloc, given)?;
    Ok(Asked::Store {
        archive,
        file,
        stall,
        request,
        log: given.log,
        spool,
    })
}

// A file that is stored under the name of its build. No word says another kind.
fn build_of(alloc: Global, given: &GivenStore<'_, '_>) -> Result<BuildRequest, Refusal>
    ensures asked { IfOk result (λ build. spec.AsksForBuild given.now build) }
    ensures refused { IfErr result (spec.IsBuildRefused given.now) }
{
    if is_said_twice(given) {
        return Err(Refusal::BadLine);
    }
    let id = id_of(given.id)?;
    let StoreWords {
        policy,
        options,
        ..
    } = wanted_of(alloc, given)?;
    if let Some(log) = given.log {
        checked(log)?;
    }
    let naming = naming_of(given.settings, false)?;
    Ok(BuildRequest {
        id,
        is_debug: given.is_debug,
        policy,
        options,
        naming,
        limit: given.settings.limit,
    })
}

// Whether a word gives the kind of FILE, or that it may be cut, though its build gives that.
fn is_said_twice(given: &GivenStore<'_, '_>) -> bool
    ensures { result ≡ spec.is_said_twice given.now }
{
    given.exec.is_some() || given.name.is_some() || !given.pairs.is_empty() || given.cut
}

// The build ID of a word, if it is there: 2 to 55 bytes, each as two hexadecimal digits.
fn id_of(word: Option<&str>) -> Result<Option<ArrayVec<u8, 64>>, Refusal>
    ensures said { IfOk result (λ id. spec.id_said (option_copied word.entry) ≡ Ok (option_map (λ i. i.items) id)) }
    ensures refused { IfErr result (λ why. (why ≡ BadLine) × (spec.id_said (option_copied word.entry) ≡ Err BadLine)) }
{
    let Some(word) = word else {
        return Ok(None);
    };
    match decode_hex(word.as_bytes()) {
        Some(id) if has_name(&id) => Ok(Some(id)),
        _ => Err(Refusal::BadLine),
    }
}

// The spool that a core goes to first. An executable goes to none: if it were cut on its way, a flush would store it under its name.
fn spool_of<'a>(
    alloc: Global,
    given: &GivenStore<'_, 'a>,
) -> Result<Option<SpoolWords<'a>>, Refusal>
    ensures spooled { IfOk result (λ spool. spec.IsSpooled given.now (spec.spool_said given.now) spool) }
    ensures refused { IfErr result (spec.IsRefused given.now) }
{
    match (given.spool, given.exec) {
        (Some(folder), None) => Ok(Some(SpoolWords {
            folder: checked(folder)?,
            begin: first_line(alloc, given)?,
            fit: given.fit,
        })),
        _ => Ok(None),
    }
}

// The file to store, and its name. The template is checked after the words.
fn request_of(alloc: Global, given: &GivenStore<'_, '_>) -> Result<StoreRequest, Refusal>
    ensures asked { IfOk result (λ request. spec.Asks given.now request) }
    ensures refused { IfErr result (spec.IsRefused given.now) }
    ensures limits { spec.policy_said given.now ≡ Err BadLine → result ≡ Err BadLine }
{
    let words = wanted_of(alloc, given)?;
    let name = name_line(alloc, given)?;
    checked(given.settings.template)?;
    if let Some(log) = given.log {
        checked(log)?;
    }
    let naming = naming_of(settings_of(given), false)?;
    let request = StoreRequest::of(words, &naming, given.settings.limit);
    match name {
        Some(line) => Ok(request.named(&line, &naming)),
        None => Ok(request),
    }
}

// How the case is named before it gets its own name, if it has one: by a template that gives every core a name.
fn settings_of<'a>(given: &GivenStore<'_, 'a>) -> SessionWords<'a>
    ensures template { result.template.now ≡ spec.template_said given.now }
    ensures process { result.uses_pid ≡ spec.pid_said given.now }
{
    if given.name.is_some() {
        SessionWords {
            template: "core",
            uses_pid: false,
            limit: given.settings.limit,
        }
    } else {
        given.settings
    }
}

// The line of a script that begins an executable of the name that a core is to have, if it has one. It goes with no other name, and a spool
// keeps none.
fn name_line(alloc: Global, given: &GivenStore<'_, '_>) -> Result<Option<Vec<u8>>, Refusal>
    ensures named { IfOk result (λ line. spec.IsNamed given.now.escapes (option_copied given.now.name) (option_map (λ l. l.items) line)) }
    ensures alone { IfOk result (λ line. spec.is_named_twice given.now ≡ false) }
    ensures refused { IfErr result (λ why. ((why ≡ BadLine) × (spec.is_named_twice given.now ≡ true)) ⊎ spec.IsUnspelled why) }
{
    if is_named_twice(given) {
        return Err(Refusal::BadLine);
    }
    match given.name {
        Some(name) => Ok(Some(valued_line(alloc, b"begin exec 0 ", name, given.escapes)?)),
        None => Ok(None),
    }
}

// Whether a core's name is given, and another word names the case, or stores the core by way of a spool.
fn is_named_twice(given: &GivenStore<'_, '_>) -> bool
    ensures { result ≡ spec.is_named_twice given.now }
{
    given.name.is_some() && (given.exec.is_some() || given.spool.is_some())
}

// The file to store, and the cases that go for it.
fn wanted_of(alloc: Global, given: &GivenStore<'_, '_>) -> Result<StoreWords, Refusal>
    ensures asked { IfOk result (λ words. spec.AsksFor given.now words) }
    ensures refused { IfErr result (spec.AreRefused given.now) }
    ensures limits { spec.policy_said given.now ≡ Err BadLine → result ≡ Err BadLine }
{
    let policy = policy_of(given)?;
    let begin = first_line(alloc, given)?;
    let label = label_of(alloc, given)?;
    let length = number_of(given.length)?;
    let digest = digest_of(given.digest)?;
    let options = StoreOptions {
        label,
        pin: given.pin,
        fit: given.fit,
        order: order_of(given.fair),
        cut: cut_of(given),
        length,
        digest,
        burst: None,
    };
    Ok(StoreWords {
        policy,
        begin,
        options,
    })
}

// The most bytes that are kept of a file that has more: those of the limit, if it may be cut.
fn cut_of(given: &GivenStore<'_, '_>) -> Option<u64>
    ensures { result ≡ (if given.now.cut then Some given.now.settings.limit else None) }
{
    if given.cut {
        Some(given.settings.limit)
    } else {
        None
    }
}

// The limits that the archive is to be brought down to, of those that are there.
fn policy_of(given: &GivenStore<'_, '_>) -> Result<Option<Policy>, Refusal>
    ensures said { result ≡ spec.policy_said given.now }
    ensures refused { IfErr result (λ why. (why ≡ BadLine) × (spec.policy_said given.now ≡ Err BadLine)) }
{
    let keep = number_of(given.keep)?;
    let bytes = number_of(given.bytes)?;
    let before = number_of(given.before)?;
    Ok(policy_within(keep, bytes, before))
}

// The number of a word, if it is there, as a script has it.
pub(crate) fn number_of(word: Option<&str>) -> Result<Option<u64>, Refusal>
    ensures said { result ≡ spec.number_said (option_copied word.entry) }
    ensures refused { IfErr result (λ why. (why ≡ BadLine) × (spec.number_said (option_copied word.entry) ≡ Err BadLine)) }
{
    let Some(word) = word else {
        return Ok(None);
    };
    match parse_number(word.as_bytes()) {
        Some(number) => Ok(Some(number)),
        None => Err(Refusal::BadLine),
    }
}

// The SHA-256 of a word, if it is there: 32 bytes, each as two hexadecimal digits.
fn digest_of(word: Option<&str>) -> Result<Option<[u8; 32]>, Refusal>
    ensures said { result ≡ spec.digest_said (option_copied word.entry) }
    ensures refused { IfErr result (λ why. (why ≡ BadLine) × (spec.digest_said (option_copied word.entry) ≡ Err BadLine)) }
{
    let Some(word) = word else {
        return Ok(None);
    };
    match decode_hex(word.as_bytes()) {
        Some(bytes) if bytes.len() == 32 => {
            let mut digest = [0; 32];
            digest.copy_from_slice(bytes.as_slice());
            Ok(Some(digest))
        }
        _ => Err(Refusal::BadLine),
    }
}

// The line of a script that begins the stream: of an executable if it has a name, else of a core with its pairs. A core's pairs say
// nothing of an executable, so both together are refused.
fn first_line(alloc: Global, given: &GivenStore<'_, '_>) -> Result<Vec<u8>, Refusal>
    ensures begun { IfOk result (λ line. spec.IsBegun given.now (option_copied given.now.exec) (spec.pairs_of given.now) line.items) }
    ensures refused { IfErr result (λ why. ((why ≡ BadLine) × spec.HasBoth (option_copied given.now.exec) (spec.pairs_of given.now)) ⊎ spec.IsUnspelled why) }
{
    match given.exec {
        None => core_line(alloc, given.pairs, given.escapes),
        Some(name) if given.pairs.is_empty() => valued_line(
            alloc,
            b"begin exec 0 ",
            name,
            given.escapes,
        ),
        Some(_) => Err(Refusal::BadLine),
    }
}

// The label of the case that is stored, if one is asked for. It is read as the line `label` of a script reads it, and a label
// that no line can give is refused before anything is stored.
fn label_of(alloc: Global, given: &GivenStore<'_, '_>) -> Result<Option<ArrayVec<u8, 64>>, Refusal>
    ensures labelled { IfOk result (λ label. spec.IsLabelled given.now.escapes (option_copied given.now.label) label) }
    ensures refused { IfErr result (λ why. ((why ≡ BadLine) × spec.IsNoLabel given.now.escapes (option_copied given.now.label)) ⊎ spec.IsUnspelled why) }
{
    let Some(text) = given.label else {
        return Ok(None);
    };
    let line = valued_line(alloc, b"label 1 ", text, given.escapes)?;
    match parse_question(&line) {
        Some(Question::Call(Call::Label { label, .. })) => Ok(Some(label)),
        _ => Err(Refusal::BadLine),
    }
}
