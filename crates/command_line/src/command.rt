//! The command as `clap` reads it, and the texts that it finds in the words. Which texts may stand
//! together is no matter of the command.

ghost use Rattle.std.specs.Prelude.{◌≡◌, IfOk, IfErr, map, option_map, string_bytes, false, true};
ghost use Rattle.clap.specs.Words.{app_of, first_of, found_of, rows_of, rule_of, with_rule};
ghost use Rattle.command_line.specs.Command.{bare_command, command as the_command, file_rule, flag_rule, given_in, is_taken, option_rule, rows_given, says_true, texts_in, texts_of, with_more, with_tasks as with_the_tasks};
ghost use Rattle.command_line.specs.Shapes.{given_shape, texts_shape};
ghost use Rattle.command_line.specs.declared.error.WordsError.TheVariants as errors;

use crate::error::WordsError;
use clap::error::ErrorKind;
use clap::{Arg, ArgAction, ArgMatches, Command};
use std::alloc::{AllocError, Global};

/// The texts of how a program is run.
#[derive(Drop)]
pub struct Given<'a> {
    pub workers: Option<&'a str>,
    pub budget: Option<&'a str>,
    pub strategy: Option<&'a str>,
    pub update: Option<&'a str>,
}

/// The texts that the words give.
#[derive(Drop)]
pub struct Texts<'a> {
    pub file: Option<&'a str>,
    pub check: bool,
    pub determinate: bool,
    pub journal: bool,
    pub save: bool,
    pub resume: Option<&'a str>,
    pub replay: Option<&'a str>,
    pub same: Option<&'a str>,
    pub trace: Option<&'a str>,
    pub make: Option<&'a str>,
    pub state: Option<&'a str>,
    pub settings: Given<'a>,
}

/// The texts in words that are the command's.
pub fn read_texts<'a>(alloc: Global, words: &'a [String]) -> Result<Texts<'a>, WordsError>
    ensures taken { IfOk result (λ _. is_taken (map string_bytes words.now) ≡ true) }
    ensures texts { IfOk result (λ t. texts_shape t ≡ texts_of (map string_bytes words.now)) }
    ensures usage { IfErr result
        (λ e. e ≡ errors.Usage → is_taken (map string_bytes words.now) ≡ false) }
{
    let matches = matches(alloc, words)?;
    Ok(texts_found(&matches))
}

// What the command finds in the words.
#[tactic(auto, unfolding(crate::specs::Command::is_taken, crate::specs::Command::rows_given))]
fn matches<'a>(alloc: Global, words: &'a [String]) -> Result<ArgMatches<'a>, WordsError>
    ensures taken { IfOk result (λ _. is_taken (map string_bytes words.now) ≡ true) }
    ensures rows { IfOk result
        (λ m. rows_of (found_of m) ≡ rows_given (map string_bytes words.now)) }
    ensures usage { IfErr result
        (λ e. e ≡ errors.Usage → is_taken (map string_bytes words.now) ≡ false) }
{
    let command = command(alloc)?;
    match command.try_get_matches_from(words) {
        Ok(matches) => Ok(matches),
        Err(error) => match error.kind() {
            ErrorKind::OutOfMemory => Err(WordsError::Memory),
            _ => Err(WordsError::Usage),
        },
    }
}

// The whole command.
fn command<'a>(alloc: Global) -> Result<Command<'a>, AllocError>
    ensures { IfOk result (λ c. app_of c ≡ the_command) }
{
    let command = with_file(alloc, bare(alloc))?;
    let command = with_flag(alloc, command, "check")?;
    let command = with_option(alloc, command, "budget")?;
    let command = with_option(alloc, command, "replay")?;
    let command = with_more_options(alloc, command)?;
    with_tasks(alloc, command)
}

// The options behind `--replay`.
fn with_more_options<'a>(alloc: Global, command: Command<'a>) -> Result<Command<'a>, AllocError>
    ensures { IfOk result (λ c. app_of c ≡ with_more (app_of command.entry)) }
{
    let command = with_option(alloc, command, "make")?;
    let command = with_option(alloc, command, "state")?;
    let command = with_option(alloc, command, "workers")?;
    let command = with_option(alloc, command, "strategy")?;
    with_option(alloc, command, "update")
}

// The options of further tasks.
fn with_tasks<'a>(alloc: Global, command: Command<'a>) -> Result<Command<'a>, AllocError>
    ensures { IfOk result (λ c. app_of c ≡ with_the_tasks (app_of command.entry)) }
{
    let command = with_flag(alloc, command, "determinate")?;
    let command = with_flag(alloc, command, "journal")?;
    let command = with_flag(alloc, command, "save")?;
    let command = with_option(alloc, command, "resume")?;
    let command = with_option(alloc, command, "same")?;
    with_option(alloc, command, "trace")
}

// The program's name.
fn bare<'a>(alloc: Global) -> Command<'a>
    ensures { app_of result ≡ bare_command }
{
    Command::new(alloc, "asp")
        .no_binary_name(true)
        .disable_help_flag(true)
        .disable_version_flag(true)
}

fn with_file<'a>(alloc: Global, command: Command<'a>) -> Result<Command<'a>, AllocError>
    ensures { IfOk result (λ c. app_of c ≡ with_rule (app_of command.entry) file_rule) }
{
    command.arg(Arg::new(alloc, "file"))
}

fn with_flag<'a>(
    alloc: Global,
    command: Command<'a>,
    name: &'a str,
) -> Result<Command<'a>, AllocError>
    ensures { IfOk result
        (λ c. app_of c ≡ with_rule (app_of command.entry) (flag_rule name.entry.now)) }
{
    command.arg(option(alloc, name).action(ArgAction::SetTrue))
}

fn with_option<'a>(
    alloc: Global,
    command: Command<'a>,
    name: &'a str,
) -> Result<Command<'a>, AllocError>
    ensures { IfOk result
        (λ c. app_of c ≡ with_rule (app_of command.entry) (option_rule name.entry.now)) }
{
    command.arg(option(alloc, name))
}

// An option with one value.
fn option<'a>(alloc: Global, name: &'a str) -> Arg<'a>
    ensures rule { rule_of result ≡ option_rule name.entry.now }
    ensures local { result.global ≡ false }
{
    Arg::new(alloc, name).long(name)
}

// The texts among what the command found.
fn texts_found<'a>(matches: &ArgMatches<'a>) -> Texts<'a>
    ensures { texts_shape result ≡ texts_in (rows_of (found_of matches.now)) }
{
    Texts {
        file: text_of(matches, "file"),
        check: is_true(text_of(matches, "check")),
        determinate: is_true(text_of(matches, "determinate")),
        journal: is_true(text_of(matches, "journal")),
        save: is_true(text_of(matches, "save")),
        resume: text_of(matches, "resume"),
        replay: text_of(matches, "replay"),
        same: text_of(matches, "same"),
        trace: text_of(matches, "trace"),
        make: text_of(matches, "make"),
        state: text_of(matches, "state"),
        settings: given_found(matches),
    }
}

fn given_found<'a>(matches: &ArgMatches<'a>) -> Given<'a>
    ensures { given_shape result ≡ given_in (rows_of (found_of matches.now)) }
{
    Given {
        workers: text_of(matches, "workers"),
        budget: text_of(matches, "budget"),
        strategy: text_of(matches, "strategy"),
        update: text_of(matches, "update"),
    }
}

fn text_of<'a>(matches: &ArgMatches<'a>, id: &str) -> Option<&'a str>
    ensures { option_map (λ s. s.now) result ≡ first_of id.now (rows_of (found_of matches.now)) }
{
    matches.get_str(id)
}

// The flag was given.
fn is_true(text: Option<&str>) -> bool
    ensures { result ≡ says_true (option_map (λ s. s.now) text.entry) }
{
    match text {
        Some(text) => text == "true",
        None => false,
    }
}
