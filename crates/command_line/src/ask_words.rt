// The request that the words of `ask` make.
ghost use Rattle.std.specs.Prelude.{◌≡◌, ◌⊎◌, ℕ, None, List, codes, IfErr, IfOk, map};
ghost use Rattle.std.specs.Borrow.{Bor};
ghost use Rattle.archive_files.specs.declared.failures.Refusal.TheVariants.{NoLine};
ghost use Rattle.command_words.specs.Lines.{joined};
ghost use Rattle.command_words.specs.Words.{text_in};
ghost use Rattle.command_line.specs.Asking as asking;
ghost use Rattle.command_line.specs.Requesting.{IsUnspelled};

use crate::asked::{Asked, checked};
use archive_files::{ArchivePath, Refusal};
use case_info::{dumped_words, question_with, register_in};
use case_listing::{foreseen_by, named_question};
use command_words::{Given, digits_of, line_of, rows_of, usage_told};
use script_lines::{Question, parse_question};
use std::alloc::{AllocError, Global};

// The most bytes of a line of a script.
const LONGEST_LINE: usize = 1024;

// The words of a line whose rows may be printed as JSON.
const ROWS: &str = "--json LINE, a line that asks an image; corekeep list --json tells the cases";

// The words of a line whose memory may be printed as words.
const DUMP: &str = "dump N ADDR LEN --words";

// The words of a line that takes a text.
const TEXT: &str = "find N --text TEXT";

// The form in which a reply is printed.
#[derive(Clone, Copy, PartialEq, Eq)]
pub(crate) enum Form {
    // As the script has it.
    Reply,
    // For people.
    Plain,
    // Its rows as JSON.
    Rows,
    // Its memory as words, for people.
    Words,
}

// One line of a script, as the words have it.
#[derive(Drop)]
pub(crate) struct AskedLine<'a> {
    words: Vec<&'a str>,
    // The last word of the line, if its bytes are said as a text: their digits.
    digits: Option<String>,
    pub(crate) form: Form,
    // Executables are chosen by build.
    pub(crate) by_build: bool,
}

impl AskedLine<'_> {
    // The words of the line.
    pub(crate) fn words(&self, alloc: Global) -> Result<Vec<&str>, AllocError>
        ensures { IfOk result (λ words. map (λ word. word.now) words.items ≡ asking.words_of self.now) }
    {
        let mut words = Vec::new(alloc);
        for word in &self.words {
            words.push(*word)?;
        }
        if let Some(digits) = &self.digits {
            words.push(digits.as_str())?;
        }
        Ok(words)
    }

    // The question of the line, if it has a number for the case. Without one its second word names a case.
    fn question(&self, alloc: Global) -> Result<Option<Question>, Refusal>
        ensures asked { IfOk result (asking.IsAsked self.now.by_build (joined (asking.words_of self.now))) }
        ensures refused { IfErr result (asking.IsNoQuestion (joined (asking.words_of self.now))) }
    {
        check_all(&self.words)?;
        let line = self.line(alloc)?;
        if line.len() > LONGEST_LINE {
            return Err(Refusal::LineTooLong);
        }
        match parse_question(&line) {
            Some(question) => Ok(Some(question.choosing(self.by_build))),
            None => self.named_case(alloc),
        }
    }

    // The line.
    fn line(&self, alloc: Global) -> Result<Vec<u8>, Refusal>
        ensures same { IfOk result (λ line. line.items ≡ joined (asking.words_of self.now)) }
        ensures refused { IfErr result IsUnspelled }
    {
        let Ok(words) = self.words(alloc) else {
            return Err(Refusal::OutOfMemory);
        };
        match line_of(alloc, &words) {
            Ok(line) => Ok(line),
            Err(_) => Err(Refusal::OutOfMemory),
        }
    }

    // No question, if the second word names a case, or the third one a register.
    fn named_case(&self, alloc: Global) -> Result<Option<Question>, Refusal>
        ensures none { IfOk result (λ question. question ≡ None) }
        ensures refused { IfErr result (λ why. ((words : Bor (List ℕ)) × (why ≡ NoLine words)) ⊎ IsUnspelled why) }
    {
        let Ok(words) = self.words(alloc) else {
            return Err(Refusal::OutOfMemory);
        };
        let found = match register_in(&words) {
            Some(_) => question_with(alloc, &words, 1, 0),
            None => named_question(alloc, &words),
        };
        match found {
            Ok(Some(_)) => Ok(None),
            Ok(None) => Err(Refusal::NoLine(usage_told(first_of(&self.words)))),
            Err(_) => Err(Refusal::OutOfMemory),
        }
    }
}

// Each of them must be text.
pub(crate) fn check_all(words: &[&str]) -> Result<(), Refusal>
    ensures refused { IfErr result IsUnspelled }
{
    for word in words {
        checked(word)?;
    }
    Ok(())
}

// The request that the words of `ask` make.
pub(crate) fn ask_words<'a>(
    alloc: Global,
    given: &Given<'a>,
    archive: ArchivePath<'a>,
) -> Result<Asked<'a>, Refusal>
    ensures asked { IfOk result (asking.IsAsk given.now archive.entry) }
{
    let words = given.words.as_slice();
    let form = form_of(given);
    if let Some(policy) = foreseen_by(alloc, words)? {
        refuse_forms(given, form)?;
        return Ok(Asked::WouldRetire { archive, policy });
    }
    let line = line_said(alloc, given)?;
    let question = line.question(alloc)?;
    if form == Form::Rows && rows_of(first_of(words)).is_empty() {
        return Err(Refusal::NoLine(ROWS));
    }
    if form == Form::Words && dumped_words(words).is_none() {
        return Err(Refusal::NoLine(DUMP));
    }
    Ok(Asked::Ask {
        archive,
        line,
        question,
    })
}

// The line, and the form in which its reply is printed.
fn line_said<'a>(alloc: Global, given: &Given<'a>) -> Result<AskedLine<'a>, Refusal>
    ensures { IfOk result (asking.IsLine given.now) }
{
    Ok(AskedLine {
        words: given.words.to_vec(alloc)?,
        digits: digits_said(alloc, given)?,
        form: form_of(given),
        by_build: given.flag("builds"),
    })
}

// The reply to `would-retire` has no rows and no text: people read it as it is.
fn refuse_forms(given: &Given<'_>, form: Form) -> Result<(), Refusal> {
    if form == Form::Rows {
        return Err(Refusal::NoLine(ROWS));
    }
    if form == Form::Words {
        return Err(Refusal::NoLine(DUMP));
    }
    match given.text("text") {
        Some(_) => Err(Refusal::NoLine(TEXT)),
        None => Ok(()),
    }
}

fn form_of(given: &Given<'_>) -> Form
    ensures { result ≡ asking.form_said given.now }
{
    if given.flag("json") {
        Form::Rows
    } else if given.flag("words") {
        Form::Words
    } else if given.flag("plain") {
        Form::Plain
    } else {
        Form::Reply
    }
}

// The digits of the text that `find` looks for, if one is said.
fn digits_said(alloc: Global, given: &Given<'_>) -> Result<Option<String>, Refusal>
    ensures { IfOk result (λ digits. asking.digits_behind digits ≡ asking.digits_meant (text_in given.now (codes "text"))) }
{
    let Some(text) = given.text("text") else {
        return Ok(None);
    };
    if first_of(given.words.as_slice()) != "find" {
        return Err(Refusal::NoLine(TEXT));
    }
    Ok(Some(digits_of(alloc, text)?))
}

fn first_of<'a>(words: &[&'a str]) -> &'a str {
    words.first().copied().unwrap_or("")
}
