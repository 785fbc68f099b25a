// The request that the words of `handle` make.
ghost use Rattle.std.specs.Prelude.{◌≡◌, [], codes, IfOk, IfErr};
ghost use Rattle.std.specs.Option.{option_copied};
ghost use Rattle.archive_files.specs.declared.failures.Refusal.TheVariants.{OutOfMemory};
ghost use Rattle.command_line.specs.Requesting as spec;

use crate::asked::checked;
use crate::begin_line::takes_pair;
use crate::named_words::NamedWords;
use archive_files::Refusal;
use core_handler::HandleWords;
use script_words::parse_number;
use std::alloc::Global;

// The words of `handle`.
#[derive(Clone, Copy)]
pub(crate) struct GivenHandle<'g, 'a> {
    archive: Option<&'a str>,
    length: Option<&'a str>,
    stall: Option<&'a str>,
    is_check: bool,
    is_flush: bool,
    // The name of the configuration, and the known facts of a core.
    words: &'g [&'a str],
}

impl<'g, 'a> GivenHandle<'g, 'a> {
    // The words under each name, beside these.
    pub(crate) fn of<W: NamedWords<'a>>(named: &W, words: &'g [&'a str]) -> Self
        ensures given { spec.IsGivenToHandle W.NamedWords named.now result }
        ensures words { result.words.now ≡ words.entry.now }
    {
        GivenHandle {
            archive: named.word("archive"),
            length: named.word("length"),
            stall: named.word("stall"),
            is_check: named.states("check"),
            is_flush: named.states("flush"),
            words,
        }
    }
}

// The request that the words of `handle` make. The first word that is no pair names the configuration.
pub(crate) fn handle_words<'a>(
    alloc: Global,
    given: &GivenHandle<'_, 'a>,
) -> Result<HandleWords<'a>, Refusal>
    ensures asked { IfOk result (λ asked. spec.Handles given.now asked) }
    ensures refused { IfErr result spec.IsUnspelled }
{
    let (config, pairs) = configured(given.words);
    let config = checked_if(config)?;
    let stated = stated_length(given.length, pairs);
    let length = length_of(stated);
    let stall = length_of(given.stall);
    let (begin, left_out) = known_pairs(alloc, pairs)?;
    let archive = checked_if(given.archive)?;
    Ok(HandleWords {
        config,
        archive,
        begin,
        left_out,
        length,
        faulty_length: if length.is_none() { stated } else { None },
        stall,
        faulty_stall: if stall.is_none() { given.stall } else { None },
        core_limit: number_at(pairs, "limit="),
        mode: number_at(pairs, "mode="),
        is_check: given.is_check,
        is_flush: given.is_flush,
    })
}

fn checked_if<'a>(word: Option<&'a str>) -> Result<Option<&'a str>, Refusal>
    ensures same { IfOk result (λ text. option_copied text ≡ option_copied word.entry) }
    ensures refused { IfErr result spec.IsUnspelled }
{
    match word {
        Some(word) => Ok(Some(checked(word)?)),
        None => Ok(None),
    }
}

// The word that names the configuration, and those behind it.
fn configured<'g, 'a>(words: &'g [&'a str]) -> (Option<&'a str>, &'g [&'a str])
    ensures config { option_copied result.0 ≡ spec.config_of words.now }
    ensures pairs { result.1.now ≡ spec.pairs_beside words.now }
{
    match words.split_first() {
        Some((first, rest)) if !has_equals(first) => (Some(*first), rest),
        _ => (None, words),
    }
}

fn has_equals(word: &str) -> bool
    ensures { result ≡ spec.has_equals word.now }
{
    word.split_once('=').is_some()
}

// The word that states the length of a core: the last pair of that name, or else the option.
fn stated_length<'a>(option: Option<&'a str>, pairs: &[&'a str]) -> Option<&'a str>
    ensures { spec.IsStatedBy (option_copied option.entry) pairs.now (option_copied result) }
{
    let mut stated = option;
    for pair in pairs {
        stated = length_pair(pair).or(stated);
    }
    stated
}

// The value of the pair that states a length.
fn length_pair<'a>(pair: &'a str) -> Option<&'a str>
    ensures { spec.IsLengthIn pair.now (option_copied result) }
{
    pair.strip_prefix("length=")
}

fn length_of(stated: Option<&str>) -> Option<u64>
    ensures { result ≡ spec.length_of (option_copied stated.entry) }
{
    parse_number(stated?.as_bytes())
}

// The number of the first pair that has one behind this key, as `begin core` reads it.
fn number_at(pairs: &[&str], key: &str) -> Option<u64>
    ensures { spec.IsNumberAt key.now pairs.now result }
{
    for pair in pairs {
        if let Some(number) = number_in(pair, key) {
            return Some(number);
        }
    }
    None
}

// The number of a pair behind this key.
fn number_in(pair: &str, key: &str) -> Option<u64>
    ensures { spec.IsNumberIn key.now pair.now result }
{
    let value = pair.strip_prefix(key)?;
    parse_number(value.as_bytes())
}

// The line that begins a core with these pairs, and the pairs that it can't have.
fn known_pairs<'a>(alloc: Global, pairs: &[&'a str]) -> Result<(Vec<u8>, Vec<&'a str>), Refusal>
    ensures known { IfOk result (λ known. spec.TakesPairs (codes "begin core 0") [] pairs.now known.0.items known.1.items) }
    ensures refused { IfErr result (λ why. why ≡ OutOfMemory) }
{
    let Ok(begin) = b"begin core 0".to_vec(alloc) else {
        return Err(Refusal::OutOfMemory);
    };
    let mut line = begin;
    let mut left_out = Vec::new(alloc);
    for pair in pairs {
        add_known(alloc, &mut line, &mut left_out, pair)?;
    }
    Ok((line, left_out))
}

// Adds a pair to the line that begins a core, unless it states a length, or to those that are left out, if the line can't have it.
fn add_known<'a>(
    alloc: Global,
    line: &mut Vec<u8>,
    left_out: &mut Vec<&'a str>,
    pair: &'a str,
) -> Result<(), Refusal>
    ensures added { IfOk result (λ done. spec.HasAdded line.old.items left_out.old.items pair.entry line.new.items left_out.new.items) }
    ensures refused { IfErr result (λ why. why ≡ OutOfMemory) }
{
    if length_pair(pair).is_some() {
        return Ok(());
    }
    if takes_pair(alloc, line, pair)? {
        return Ok(());
    }
    match left_out.push(pair) {
        Ok(()) => Ok(()),
        Err(_) => Err(Refusal::OutOfMemory),
    }
}
