// The words of a command line, read by the grammar. This is the
// one place that turns the matches of `clap` into plain values.
ghost use Rattle.std.specs.Prelude.{◌≡◌, true, IfErr, IfOk, map, string_bytes};
ghost use Rattle.std.specs.Option.{option_copied};
ghost use Rattle.clap.specs.Matches.{found_of};
ghost use Rattle.clap.specs.Walk.{rows_of};
ghost use Rattle.clap.specs.Takes.{takes};
ghost use Rattle.clap.specs.Values.{kind_of};
ghost use Rattle.clap.specs.declared.error.kind.ErrorKind.TheVariants as kind;
ghost use Rattle.command_words.specs.declared.given.Unread.TheVariants.{OutOfMemory};
ghost use Rattle.command_words.specs.Grammar.{grammar};
ghost use Rattle.command_words.specs.Words.{IsFoundBy, IsRead, IsSaidBy, flag_in, found_in, number_in, small_number_in, text_in, without_sign};

use crate::commands::commands;
use crate::grammar::matches_of;
use crate::raw_words::shown_words;
use crate::tables::CommandWords;
use clap::error::ErrorKind;
use clap::{ArgMatches, Error};
use script_words::{parse_number, parse_u32};
use std::alloc::{AllocError, Global};

/// A command, and the values of its words.
#[derive(Drop)]
pub struct Given<'a> {
    /// The command.
    pub command: &'a str,
    /// The words that may be there several times: those of a line, or the facts of a core.
    pub words: Vec<&'a str>,
    // The matches that clap found of its words, by the names in the grammar.
    found: ArgMatches<'a>,
}

/// Why words give no command.
#[derive(Drop)]
pub enum Unread {
    /// They ask for this help.
    Help(String),
    /// They are outside the grammar, as this text says.
    Wrong(String),
    /// There is no memory.
    OutOfMemory,
}

impl<'a> Given<'a> {
    /// The command that these words give.
    ///
    /// # Errors
    ///
    /// `Unread` if they give none.
    pub fn read(alloc: Global, words: &'a [String]) -> Result<Given<'a>, Unread>
        ensures { IfOk result (IsRead (map string_bytes words.now)) }
    {
        read_by(alloc, &commands(), words)
    }

    /// The value of a word, if it is there.
    pub fn text(&self, name: &str) -> Option<&'a str>
        ensures { option_copied result ≡ text_in self.now name.now }
    {
        self.found.get_str(name)
    }

    /// Whether an option that takes no value is there.
    pub fn flag(&self, name: &str) -> bool
        ensures { result ≡ flag_in self.now name.now }
    {
        match self.text(name) {
            Some(text) => text == "true",
            None => false,
        }
    }

    /// The number that a word is, if it is there.
    pub fn number(&self, name: &str) -> Option<u64>
        ensures { result ≡ number_in self.now name.now }
    {
        parse_number(without_sign(self.text(name)?))
    }

    /// The number that a word is, if it is there and the number is below 2^32.
    pub fn small_number(&self, name: &str) -> Option<u32>
        ensures { result ≡ small_number_in self.now name.now }
    {
        parse_u32(without_sign(self.text(name)?))
    }
}

// A number without a sign before it: the grammar takes `+1`, and `-0` for some numbers.
fn without_sign(text: &str) -> &[u8]
    ensures { result.now ≡ without_sign text.now }
{
    let bytes = text.as_bytes();
    match bytes.split_first() {
        Some((b'+' | b'-', rest)) => rest,
        _ => bytes,
    }
}

// The command that these words give, of those that these tables have.
fn read_by<'a>(
    alloc: Global,
    commands: &[&CommandWords],
    words: &'a [String],
) -> Result<Given<'a>, Unread>
    ensures said { IfOk result (λ given. IsSaidBy (grammar (map (λ command. command.now) commands.now)) (map string_bytes words.now) given) }
    ensures unread { IfErr result (λ why. takes (grammar (map (λ command. command.now) commands.now)) (map string_bytes words.now) ≡ true → why ≡ OutOfMemory) }
{
    match matches_of(alloc, commands, words) {
        Ok(matches) => match given_in(alloc, matches) {
            Ok(given) => Ok(given),
            Err(AllocError) => Err(Unread::OutOfMemory),
        },
        Err(error) => Err(why_unread(alloc, commands, words, &error)),
    }
}

// The matches that clap found of the command that the words name.
fn given_in<'a>(alloc: Global, matches: ArgMatches<'a>) -> Result<Given<'a>, AllocError>
    ensures { IfOk result (λ given. IsFoundBy matches.entry given) }
{
    let (command, found) = named_in(matches);
    let words = found.get_strs("word").unwrap_or(&[]).to_vec(alloc)?;
    Ok(Given {
        command,
        words,
        found,
    })
}

// The command that is named, and the values of its words.
fn named_in<'a>(matches: ArgMatches<'a>) -> (&'a str, ArgMatches<'a>)
    ensures { (result.0.now, rows_of (found_of result.1)) ≡ found_in matches.entry }
{
    let mut matches = matches;
    match matches.remove_subcommand() {
        Some(named) => named,
        None => ("", matches),
    }
}

// Why these words are refused. They are printed as words that print.
fn why_unread(alloc: Global, commands: &[&CommandWords], words: &[String], error: &Error) -> Unread
    ensures { kind_of error.now ≡ kind.OutOfMemory → result ≡ OutOfMemory }
{
    if error.kind() == ErrorKind::OutOfMemory {
        return Unread::OutOfMemory;
    }
    let Ok(shown) = shown_words(alloc, words) else {
        return Unread::OutOfMemory;
    };
    match matches_of(alloc, commands, &shown) {
        Ok(_) => text_of(alloc, error),
        Err(error) => text_of(alloc, &error),
    }
}

// A message without its advice to pass a word as a value behind `--`, if it has that: no word is read otherwise there.
fn without_tip(alloc: Global, message: &str) -> Result<Option<String>, AllocError> {
    let Some((before, tip)) = message.split_once("\n\n  tip: to pass ") else {
        return Ok(None);
    };
    let Some((_, rest)) = tip.split_once("\n\n") else {
        return Ok(None);
    };
    Ok(Some(format!(in alloc; "{before}\n\n{rest}")?))
}

// The message of clap.
fn text_of(alloc: Global, error: &Error) -> Unread {
    match format!(in alloc; "{error}") {
        Ok(text) if error.use_stderr() => match without_tip(alloc, &text) {
            Ok(Some(text)) => Unread::Wrong(text),
            Ok(None) => Unread::Wrong(text),
            Err(AllocError) => Unread::OutOfMemory,
        },
        Ok(text) => Unread::Help(text),
        Err(_) => Unread::OutOfMemory,
    }
}
