//! The command as `clap` reads it, and the texts that it finds in the words.

ghost use Rattle.std.specs.Prelude.{◌≡◌, [], IfOk, IfErr, false, map, option_map, string_bytes, unwrap_or};
ghost use Rattle.clap.specs.Values.{kind_of};
ghost use Rattle.clap.specs.Words.{all_of, app_of, first_of, found_of, rows_of, rule_of, with_rule};
ghost use Rattle.clap.specs.declared.error.kind.ErrorKind.TheVariants.{OutOfMemory};
ghost use Rattle.command_line.specs.Command.{flag_rule, says_true};
ghost use Rattle.outcomes_words.specs.Shapes.{IsRefusedFor, text_behind, texts_behind, texts_shape};
ghost use Rattle.outcomes_words.specs.Words.{bare_command, command as the_command, file_rule, many_rule, named_command, option_rule, rows_given, texts_in, with_ends as with_the_ends, with_options};
ghost use Rattle.outcomes_words.specs.declared.command.Refused.TheVariants as refused;

use clap::error::{Error, ErrorKind};
use clap::{Arg, ArgAction, ArgMatches, Command};
use std::alloc::{AllocError, Global};

/// The texts that the words give.
#[derive(Drop)]
pub struct Texts<'a> {
    pub file: Option<&'a str>,
    pub budget: Option<&'a str>,
    pub ends: Option<&'a str>,
    pub state: Option<&'a str>,
    pub report: Option<&'a str>,
    pub end: Option<&'a str>,
    pub given: Vec<&'a str>,
    pub whole_orders: bool,
}

/// Why words have no texts.
#[derive(Drop)]
pub enum Refused {
    Usage,
    /// They ask for help, which is this text.
    Help(String),
    Memory,
}

impl From<AllocError> for Refused {
    ghost from_gives = { λ _ r. r ≡ refused.Memory };

    fn from(_error: AllocError) -> Refused {
        Refused::Memory
    }
}

/// The texts in the words.
pub fn read_texts<'a>(alloc: Global, words: &'a [String]) -> Result<Texts<'a>, Refused>
    ensures texts { IfOk result
        (λ t. texts_shape t ≡ texts_in (rows_given (map string_bytes words.entry.now))) }
    ensures refused { IfErr result (IsRefusedFor (map string_bytes words.entry.now)) }
{
    let matches = matches(alloc, words)?;
    Ok(texts_found(alloc, &matches)?)
}

// What the command finds in the words.
fn matches<'a>(alloc: Global, words: &'a [String]) -> Result<ArgMatches<'a>, Refused>
    ensures rows { IfOk result
        (λ m. rows_of (found_of m) ≡ rows_given (map string_bytes words.entry.now)) }
    ensures refused { IfErr result (IsRefusedFor (map string_bytes words.entry.now)) }
{
    let command = command(alloc)?;
    match command.try_get_matches_from(words) {
        Ok(matches) => Ok(matches),
        Err(error) => Err(refused_for(alloc, &error)),
    }
}

fn refused_for(alloc: Global, error: &Error) -> Refused
    ensures { kind_of error.now ≡ OutOfMemory → result ≡ refused.Memory }
{
    match error.kind() {
        ErrorKind::OutOfMemory => Refused::Memory,
        ErrorKind::DisplayHelp => help(alloc, error),
        _ => Refused::Usage,
    }
}

fn help(alloc: Global, error: &Error) -> Refused {
    match format!(in alloc; "{error}") {
        Ok(text) => Refused::Help(text),
        Err(AllocError) => Refused::Memory,
    }
}

// The whole command.
fn command<'a>(alloc: Global) -> Result<Command<'a>, AllocError>
    ensures { IfOk result (λ c. app_of c ≡ the_command) }
{
    let command = with_file(alloc, bare(alloc))?;
    let command = with_all_options(alloc, command)?;
    with_ends(alloc, command)
}

fn with_all_options<'a>(alloc: Global, command: Command<'a>) -> Result<Command<'a>, AllocError>
    ensures { IfOk result (λ c. app_of c ≡ with_options (app_of command.entry)) }
{
    let command = with_option(alloc, command, "budget", "The most reductions of a run")?;
    let command = with_option(alloc, command, "ends", "The most ends that are looked for")?;
    let command = with_option(alloc, command, "state", "Show states, to this depth")?;
    with_option(
        alloc,
        command,
        "report",
        "Write the report of this outcome alone",
    )
}

fn with_ends<'a>(alloc: Global, command: Command<'a>) -> Result<Command<'a>, AllocError>
    ensures { IfOk result (λ c. app_of c ≡ with_the_ends (app_of command.entry)) }
{
    let command = with_option(alloc, command, "end", "Write the report of this end alone")?;
    let help = "Look for no ends, but check whether these reports are all";
    let command = with_many(alloc, command, "check-ends", help)?;
    let help = "Tell ends apart by each order of receptions";
    with_flag(alloc, command, "whole-orders", help)
}

fn with_file<'a>(alloc: Global, command: Command<'a>) -> Result<Command<'a>, AllocError>
    ensures { IfOk result (λ c. app_of c ≡ with_rule (app_of command.entry) file_rule) }
{
    command.arg(file(alloc))
}

fn with_option<'a>(
    alloc: Global,
    command: Command<'a>,
    name: &'a str,
    help: &'a str,
) -> Result<Command<'a>, AllocError>
    ensures { IfOk result
        (λ c. app_of c ≡ with_rule (app_of command.entry) (option_rule name.entry.now)) }
{
    command.arg(option(alloc, name, help))
}

fn with_many<'a>(
    alloc: Global,
    command: Command<'a>,
    name: &'a str,
    help: &'a str,
) -> Result<Command<'a>, AllocError>
    ensures { IfOk result
        (λ c. app_of c ≡ with_rule (app_of command.entry) (many_rule name.entry.now)) }
{
    command.arg(many(alloc, name, help))
}

fn with_flag<'a>(
    alloc: Global,
    command: Command<'a>,
    name: &'a str,
    help: &'a str,
) -> Result<Command<'a>, AllocError>
    ensures { IfOk result
        (λ c. app_of c ≡ with_rule (app_of command.entry) (flag_rule name.entry.now)) }
{
    command.arg(option(alloc, name, help).action(ArgAction::SetTrue))
}

fn bare<'a>(alloc: Global) -> Command<'a>
    ensures { app_of result ≡ bare_command }
{
    named(alloc).no_binary_name(true).disable_version_flag(true)
}

// The program's name, and what it does.
fn named<'a>(alloc: Global) -> Command<'a>
    ensures { app_of result ≡ named_command }
{
    Command::new(alloc, "asp-outcomes").about(
        "Tells every outcome that a program can have, or that it was cut off",
    )
}

fn file<'a>(alloc: Global) -> Arg<'a>
    ensures rule { rule_of result ≡ file_rule }
    ensures local { result.global ≡ false }
{
    Arg::new(alloc, "FILE").required(true).help("The program")
}

// An option with one value.
fn option<'a>(alloc: Global, name: &'a str, help: &'a str) -> Arg<'a>
    ensures rule { rule_of result ≡ option_rule name.entry.now }
    ensures local { result.global ≡ false }
{
    Arg::new(alloc, name).long(name).help(help)
}

// An option with one value or several.
fn many<'a>(alloc: Global, name: &'a str, help: &'a str) -> Arg<'a>
    ensures rule { rule_of result ≡ many_rule name.entry.now }
    ensures local { result.global ≡ false }
{
    option(alloc, name, help)
        .action(ArgAction::Append)
        .num_args(1..)
}

// The texts among what the command found.
fn texts_found<'a>(alloc: Global, matches: &ArgMatches<'a>) -> Result<Texts<'a>, AllocError>
    ensures texts { IfOk result
        (λ t. texts_shape t ≡ texts_in (rows_of (found_of matches.now))) }
{
    Ok(Texts {
        file: text_of(matches, "FILE"),
        budget: text_of(matches, "budget"),
        ends: text_of(matches, "ends"),
        state: text_of(matches, "state"),
        report: text_of(matches, "report"),
        end: text_of(matches, "end"),
        given: texts_of(alloc, matches, "check-ends")?,
        whole_orders: is_true(text_of(matches, "whole-orders")),
    })
}

// The flag was given.
fn is_true(text: Option<&str>) -> bool
    ensures { result ≡ says_true (text_behind text.entry) }
{
    match text {
        Some(text) => text == "true",
        None => false,
    }
}

fn text_of<'a>(matches: &ArgMatches<'a>, id: &str) -> Option<&'a str>
    ensures { option_map (λ s. s.now) result ≡ first_of id.now (rows_of (found_of matches.now)) }
{
    matches.get_str(id)
}

// All texts of an option.
fn texts_of<'a>(
    alloc: Global,
    matches: &ArgMatches<'a>,
    id: &str,
) -> Result<Vec<&'a str>, AllocError>
    ensures { let all = all_of id.now (rows_of (found_of matches.now)) in
        IfOk result (λ v. texts_behind v.items ≡ unwrap_or all []) }
{
    match matches.get_strs(id) {
        Some(texts) => Vec::from_slice(alloc, texts),
        None => Ok(Vec::new(alloc)),
    }
}
