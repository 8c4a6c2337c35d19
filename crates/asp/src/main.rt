//! The commands `asp`, `asp-explain` and `asp-outcomes` in one program: the real files and streams, one
//! call, its status.
#![tactic(auto)]

mod terminal;

use crate::terminal::Terminal;
use asp_edge::{FileSource, Sink, Source, StdSink};
use asp_explain::run_explain;
use asp_top::run_asp;
use end_search::ProgressBox;
use outcomes_top::run_outcomes;
use std::alloc::AllocError;
use std::env;
use std::io::ErrorKind;
use std::process::ExitCode;
use std::sync::Wait;
use std::thread::Threads;
use update_policy::{ForwardPolicy, LazyPolicy, MessagePolicy, Policies, PolicyBox};
use worker_pool::OpenGate;

/// There was no memory for the words, for the policies, or for what tells how far a search is.
const NO_MEMORY: u8 = 8;

/// The system refused the words for another cause, such as bytes that are no UTF-8.
const NO_WORDS: u8 = 12;

/// Which command is run.
#[derive(Clone, Copy)]
enum Command {
    Asp,
    Explain,
    Outcomes,
}

// The command that the first word asks for: `asp` where it asks for none.
fn command_of(word: &str) -> Command {
    if word == "--explain" {
        Command::Explain
    } else if word == "--outcomes" {
        Command::Outcomes
    } else {
        Command::Asp
    }
}

// The command, and its words: `asp` has all of them. No file is taken for a command, since `asp` would
// refuse a first word that asks for another one.
fn command_in(words: &[String]) -> (Command, &[String]) {
    if words.is_empty() {
        return (Command::Asp, words);
    }
    match command_of(words[0].as_str()) {
        Command::Asp => (Command::Asp, words),
        command => (command, &words[1..]),
    }
}

// The status of `asp`.
fn run<R: AllocGlobal + Threads + Wait + Sync, S: Source, O: Sink, E: Sink>(
    rt: &R,
    words: &[String],
    source: &mut S,
    out: &mut O,
    err: &mut E,
) -> Result<u8, AllocError> {
    let alloc = rt.alloc();
    let lazy: PolicyBox = Box::new(alloc, LazyPolicy)?;
    let forward: PolicyBox = Box::new(alloc, ForwardPolicy)?;
    let message: PolicyBox = Box::new(alloc, MessagePolicy)?;
    let policies = Policies {
        lazy,
        forward,
        message,
    };
    Ok(run_asp(rt, words, source, out, err, policies, &OpenGate))
}

// The status of `asp-outcomes`.
fn search<S: Source, O: Sink, E: Sink>(
    rt: HostRuntime,
    words: &[String],
    source: &mut S,
    out: &mut O,
    err: &mut E,
) -> Result<u8, AllocError> {
    let progress: ProgressBox = Box::new(rt.alloc(), Terminal::new(rt))?;
    Ok(run_outcomes(rt.alloc(), words, source, out, err, &progress))
}

fn main(rt: HostRuntime) -> ExitCode {
    let args = match env::args(&rt) {
        Ok(args) => args,
        Err(e) if e.kind() == ErrorKind::OutOfMemory => return ExitCode::from(NO_MEMORY),
        Err(_) => return ExitCode::from(NO_WORDS),
    };
    let mut words = Vec::new(rt.alloc());
    for word in args.skip(1) {
        if words.push(word).is_err() {
            return ExitCode::from(NO_MEMORY);
        }
    }
    let mut source = FileSource::new(&rt);
    let mut out = StdSink::out(&rt);
    let mut err = StdSink::err(&rt);
    let (command, words) = command_in(&words);
    let status = match command {
        Command::Asp => run(&rt, words, &mut source, &mut out, &mut err),
        Command::Explain => Ok(run_explain(rt.alloc(), words, &mut source, &mut out, &mut err)),
        Command::Outcomes => search(rt, words, &mut source, &mut out, &mut err),
    };
    ExitCode::from(status.unwrap_or(NO_MEMORY))
}
