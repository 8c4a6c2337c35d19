//! The command as `clap` reads it, and the texts that it finds in the words.

ghost use Rattle.std.specs.Prelude.{◌≡◌, IfOk, IfErr, false, map, string_bytes};
ghost use Rattle.clap.specs.Values.{kind_of};
ghost use Rattle.clap.specs.Words.{all_of, app_of, first_of, found_of, rows_of, rule_of, with_rule};
ghost use Rattle.clap.specs.declared.error.kind.ErrorKind.TheVariants.{OutOfMemory};
ghost use Rattle.asp_explain.specs.Words.{bare_command, command as the_command, file_rule, flag_rule, named_command, option_rule, pair_in, pair_of as pair_of_texts, pair_rule, report_rule, rows_given, says_true, texts_in, with_files as with_both_files, with_options as with_all};
ghost use Rattle.asp_explain.specs.Shapes.{IsRefusedFor, pair_behind, text_behind, texts_behind, texts_shape};
ghost use Rattle.asp_explain.specs.declared.command.Refused.TheVariants as refused;

use clap::error::{Error, ErrorKind};
use clap::{Arg, ArgAction, ArgMatches, Command};
use std::alloc::{AllocError, Global};

/// The texts that the words give.
#[derive(Drop)]
pub struct Texts<'a> {
    pub file: Option<&'a str>,
    pub report: Option<&'a str>,
    pub events: bool,
    pub activity: Option<&'a str>,
    pub from: Option<&'a str>,
    pub most: Option<&'a str>,
    /// A name and a count.
    pub until: Option<(&'a str, &'a str)>,
    pub other: Option<&'a str>,
    pub picture: bool,
}

/// Why words have no texts.
#[derive(Drop)]
pub enum Refused {
    Usage,
    /// They ask for help, which is this text.
    Help(String),
    Memory,
}

impl From<AllocError> for Refused {
    ghost from_gives = { λ _ r. r ≡ refused.Memory };

    fn from(_error: AllocError) -> Refused {
        Refused::Memory
    }
}

/// What the command finds in the words.
pub fn matches<'a>(alloc: Global, words: &'a [String]) -> Result<ArgMatches<'a>, Refused>
    ensures rows { IfOk result
        (λ m. rows_of (found_of m) ≡ rows_given (map string_bytes words.entry.now)) }
    ensures refused { IfErr result (IsRefusedFor (map string_bytes words.entry.now)) }
{
    let command = command(alloc)?;
    match command.try_get_matches_from(words) {
        Ok(matches) => Ok(matches),
        Err(error) => Err(refused_for(alloc, &error)),
    }
}

fn refused_for(alloc: Global, error: &Error) -> Refused
    ensures { kind_of error.now ≡ OutOfMemory → result ≡ refused.Memory }
{
    match error.kind() {
        ErrorKind::OutOfMemory => Refused::Memory,
        ErrorKind::DisplayHelp => help(alloc, error),
        _ => Refused::Usage,
    }
}

fn help(alloc: Global, error: &Error) -> Refused {
    match format!(in alloc; "{error}") {
        Ok(text) => Refused::Help(text),
        Err(AllocError) => Refused::Memory,
    }
}

// The whole command.
fn command<'a>(alloc: Global) -> Result<Command<'a>, AllocError>
    ensures { IfOk result (λ c. app_of c ≡ the_command) }
{
    let command = with_files(alloc, bare(alloc))?;
    with_options(alloc, command)
}

fn with_files<'a>(alloc: Global, command: Command<'a>) -> Result<Command<'a>, AllocError>
    ensures { IfOk result (λ c. app_of c ≡ with_both_files (app_of command.entry)) }
{
    let command = with_arg(command, file(alloc))?;
    with_arg(command, report(alloc))
}

// An argument that is not global.
fn with_arg<'a>(command: Command<'a>, arg: Arg<'a>) -> Result<Command<'a>, AllocError>
    requires local { arg.global ≡ false }
    ensures { IfOk result
        (λ c. app_of c ≡ with_rule (app_of command.entry) (rule_of arg.entry)) }
{
    command.arg(arg)
}

fn with_options<'a>(alloc: Global, command: Command<'a>) -> Result<Command<'a>, AllocError>
    ensures { IfOk result (λ c. app_of c ≡ with_all (app_of command.entry)) }
{
    let command = with_arg(
        command,
        flag(alloc, "events", "Tell what happened, in order"),
    )?;
    let command = with_arg(command, option(alloc, "activity", "Of this activity alone"))?;
    let command = with_arg(command, option(alloc, "from", "From this event on"))?;
    let command = with_arg(command, option(alloc, "most", "At most so many events"))?;
    let command = with_arg(
        command,
        pair(alloc, "until", "Cut the report back to a count"),
    )?;
    let command = with_arg(
        command,
        option(alloc, "other", "Tell how this report differs"),
    )?;
    with_arg(command, flag(alloc, "picture", "Draw it"))
}

fn bare<'a>(alloc: Global) -> Command<'a>
    ensures { app_of result ≡ bare_command }
{
    named(alloc).no_binary_name(true).disable_version_flag(true)
}

// The program's name, and what it does.
fn named<'a>(alloc: Global) -> Command<'a>
    ensures { app_of result ≡ named_command }
{
    Command::new(alloc, "asp-explain").about(
        "Tells what is wrong with a program, or why the run that a report shows stands as it does",
    )
}

fn file<'a>(alloc: Global) -> Arg<'a>
    ensures rule { rule_of result ≡ file_rule }
    ensures local { result.global ≡ false }
{
    Arg::new(alloc, "FILE").required(true).help("The program")
}

fn report<'a>(alloc: Global) -> Arg<'a>
    ensures rule { rule_of result ≡ report_rule }
    ensures local { result.global ≡ false }
{
    Arg::new(alloc, "REPORT").help("A report of it")
}

// An option with one value.
fn option<'a>(alloc: Global, name: &'a str, help: &'a str) -> Arg<'a>
    ensures rule { rule_of result ≡ option_rule name.entry.now }
    ensures local { result.global ≡ false }
{
    Arg::new(alloc, name).long(name).help(help)
}

// An option with two values.
fn pair<'a>(alloc: Global, name: &'a str, help: &'a str) -> Arg<'a>
    ensures rule { rule_of result ≡ pair_rule name.entry.now }
    ensures local { result.global ≡ false }
{
    option(alloc, name, help).num_args(2)
}

fn flag<'a>(alloc: Global, name: &'a str, help: &'a str) -> Arg<'a>
    ensures rule { rule_of result ≡ flag_rule name.entry.now }
    ensures local { result.global ≡ false }
{
    option(alloc, name, help).action(ArgAction::SetTrue)
}

/// The texts among what the command found.
pub fn texts_found<'a>(matches: &ArgMatches<'a>) -> Texts<'a>
    ensures texts { texts_shape result ≡ texts_in (rows_of (found_of matches.now)) }
{
    Texts {
        file: text_of(matches, "FILE"),
        report: text_of(matches, "REPORT"),
        events: is_true(text_of(matches, "events")),
        activity: text_of(matches, "activity"),
        from: text_of(matches, "from"),
        most: text_of(matches, "most"),
        until: pair_of(matches, "until"),
        other: text_of(matches, "other"),
        picture: is_true(text_of(matches, "picture")),
    }
}

fn text_of<'a>(matches: &ArgMatches<'a>, id: &str) -> Option<&'a str>
    ensures { text_behind result ≡ first_of id.now (rows_of (found_of matches.now)) }
{
    matches.get_str(id)
}

fn pair_of<'a>(matches: &ArgMatches<'a>, id: &str) -> Option<(&'a str, &'a str)>
    ensures { pair_behind result ≡ pair_in (all_of id.now (rows_of (found_of matches.now))) }
{
    match matches.get_strs(id) {
        Some(texts) => two_of(texts),
        None => None,
    }
}

// Two texts.
fn two_of<'a>(texts: &[&'a str]) -> Option<(&'a str, &'a str)>
    ensures { pair_behind result ≡ pair_of_texts (texts_behind texts.now) }
{
    if texts.len() == 2 {
        Some((texts[0], texts[1]))
    } else {
        None
    }
}

// The flag was given.
fn is_true(text: Option<&str>) -> bool
    ensures { result ≡ says_true (text_behind text.entry) }
{
    match text {
        Some(text) => text == "true",
        None => false,
    }
}
