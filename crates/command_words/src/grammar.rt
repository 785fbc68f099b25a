// The grammar of the program's words, made from the tables.
ghost use Rattle.std.specs.Prelude.{◌≡◌, true, IfErr, IfOk, map, string_bytes};
ghost use Rattle.clap.specs.Simple.{HasMatchesOf, app_of, shape_of};
ghost use Rattle.clap.specs.Takes.{takes};
ghost use Rattle.clap.specs.Values.{kind_of};
ghost use Rattle.clap.specs.declared.error.kind.ErrorKind.TheVariants.{OutOfMemory};
ghost use Rattle.clap.specs.Walk.{rule_of};
ghost use Rattle.command_words.specs.Grammar.{action_said, alone, begun, grammar, named_by, program_said, rule_said, shape_said};

use crate::tables::{CommandWords, Takes, Word};
use clap::builder::ValueParser;
use clap::{Arg, ArgAction, ArgMatches, Command, Error};
use std::alloc::{AllocError, Global};

// The matches of these words by the grammar.
pub(crate) fn matches_of<'a>(
    alloc: Global,
    commands: &[&CommandWords],
    words: &'a [String],
) -> Result<ArgMatches<'a>, Error>
    ensures read { IfOk result (HasMatchesOf (grammar (map (λ command. command.now) commands.now)) (map string_bytes words.now)) }
    ensures passes { IfErr result (λ error. takes (grammar (map (λ command. command.now) commands.now)) (map string_bytes words.now) ≡ true → kind_of error ≡ OutOfMemory) }
{
    let subcommands = subcommands_of(alloc, commands)?;
    whole_program(alloc)?
        .subcommands(subcommands)?
        .try_get_matches_from(words)
}

fn subcommands_of<'a>(
    alloc: Global,
    commands: &[&CommandWords],
) -> Result<Vec<Command<'a>>, AllocError>
    ensures { IfOk result (λ made. map shape_of made.items ≡ map (λ command. shape_said command.now) commands.now) }
{
    let mut subcommands = Vec::new(alloc);
    for words in commands {
        subcommands.push(command_of(alloc, words)?)?;
    }
    Ok(subcommands)
}

// The text that help shows after the commands.
const STATUSES: &str = "Statuses:\n\
     \x20\x200  it is done\n\
     \x20\x201  it is refused (`no REASON` on standard output, and its meaning on standard error; `extract` and `digest` print both on standard error),\n\
     \x20\x20   a session ended before its script (`fault NAME` on standard error), or no case matches the filters\n\
     \x20\x202  the words of the command line are refused\n\
     `corekeep help REASON` says what a reason means, `corekeep help LINE` what a line of `ask` does.";

static PROGRAM: CommandWords = CommandWords {
    name: "corekeep",
    about: "Keeps core dumps of RISC-V 64 Linux processes, with their executables, in one archive file of fixed size, and answers questions about them",
    after_help: Some(STATUSES),
    words: &[],
};

// The program, before its commands.
fn whole_program<'a>(alloc: Global) -> Result<Command<'a>, AllocError>
    ensures { IfOk result (λ program. app_of program ≡ alone program_said) }
{
    Ok(
        command_of(alloc, &PROGRAM)?
            .bin_name("corekeep")?
            .version("0.2.0, archives of layout versions 1 and 2")
            .no_binary_name(true)
            .subcommand_required(true),
    )
}

// A command and its words.
fn command_of<'a>(alloc: Global, words: &CommandWords) -> Result<Command<'a>, AllocError>
    ensures { IfOk result (λ command. app_of command ≡ alone (shape_said words.now)) }
{
    let arguments = arguments_of(alloc, words.words)?;
    let command = Command::new(alloc, words.name)
        .about(words.about)
        .args(arguments)?;
    match words.after_help {
        Some(help) => Ok(command.after_help(help)),
        None => Ok(command),
    }
}

fn arguments_of<'a>(alloc: Global, words: &[Word]) -> Result<Vec<Arg<'a>>, AllocError>
    ensures { IfOk result (λ made. map rule_of made.items ≡ map rule_said words.now) }
{
    let mut arguments = Vec::new(alloc);
    for word in words {
        arguments.push(argument(alloc, word)?)?;
    }
    Ok(arguments)
}

// A word of a command.
fn argument<'a>(alloc: Global, word: &Word) -> Result<Arg<'a>, AllocError>
    ensures { IfOk result (λ argument. rule_of argument ≡ rule_said word.now) }
{
    let argument = begun(alloc, word);
    match word.takes {
        Takes::Flag => Ok(argument.long(word.id)),
        Takes::FlagWithoutJson => Ok(argument.long(word.id).conflicts_with("json")?),
        Takes::FlagWithBuild => Ok(argument.long(word.id).requires_arg("build")?),
        Takes::Place => Ok(argument.value_name(word.shown).required(true)),
        Takes::NewPlace => Ok(argument.value_name(word.shown)),
        Takes::Words(least) => Ok(
            argument
                .value_name(word.shown)
                .num_args(least..)
                .required(least > 0),
        ),
        Takes::Text => Ok(named(argument, word)),
        Takes::TextWithBuild => Ok(named(argument, word).requires_arg("build")?),
        Takes::TextWithoutTemplate => Ok(named(argument, word).conflicts_with("template")?),
        Takes::TextOfWhole => Ok(
            named(argument, word)
                .conflicts_with("cut")?
                .conflicts_with("spool")?,
        ),
        Takes::Blocks => Ok(
            named(argument, word)
                .value_parser(ValueParser::signed(0, 4_294_967_295))
                .required(true),
        ),
        Takes::Within(least, most) => Ok(named(argument, word).value_parser(ValueParser::signed(
            least, most,
        ))),
        Takes::Bytes => Ok(named(argument, word).value_parser(ValueParser::unsigned(0, u64::MAX))),
    }
}

// A word, before it is said how it is known.
fn begun<'a>(alloc: Global, word: &Word) -> Arg<'a>
    ensures { rule_of result ≡ begun word.now }
{
    Arg::new(alloc, word.id)
        .help(word.help)
        .action(action_of(word.takes))
}

// The action of its uses.
fn action_of(takes: Takes) -> ArgAction
    ensures { result ≡ action_said takes }
{
    match takes {
        Takes::Flag | Takes::FlagWithoutJson | Takes::FlagWithBuild => ArgAction::SetTrue,
        Takes::Words(_) => ArgAction::Append,
        _ => ArgAction::Set,
    }
}

// A value after its name.
fn named<'a>(argument: Arg<'a>, word: &Word) -> Arg<'a>
    ensures { rule_of result ≡ named_by (rule_of argument.entry) word.now }
{
    let argument = argument.long(word.id).value_name(word.shown);
    match word.default {
        Some(value) => argument.default_value(value),
        None => argument,
    }
}
