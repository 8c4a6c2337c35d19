//! The table of the command: which task is asked for, and what may stand beside it.

ghost use Rattle.std.specs.Prelude.{◌≡◌, option_map};
ghost use Rattle.command_line.specs.Shapes.{companions_shape, given_shape, text_behind, texts_shape, wanted_shape};
ghost use Rattle.command_line.specs.Wanted.{
  Make,
  Trace,
  and_asks as and_asks_shape,
  companions_of as companions_wanted,
  flag_asks as flag_asks_shape,
  is_allowed as is_allowed_beside,
  is_racing as is_racing_given,
  replay_asks as replay_asks_shape,
  save_asks as save_asks_shape,
  stand as stand_beside,
  wanted_in as wanted_among,
};

use crate::command::{Given, Texts};

/// What is asked of a program.
#[derive(Clone, Copy)]
pub enum Wanted<'a> {
    /// That it is run, where no option asks for anything else.
    Run,
    /// That it is checked.
    Check,
    /// Whether its run is the only one.
    Rule,
    /// That it is run, and what its core did is written.
    Journal,
    /// That it is run, and what is left is written, where its budget runs out.
    Save,
    /// That it is run on from the checkpoint in a file.
    Resume(&'a str),
    /// That it is run on from there, and what is left is written, where its budget runs out.
    SaveAgain(&'a str),
    /// That the report in a file is replayed.
    Replay(&'a str),
    /// That the reports in two files are compared, as services see them.
    Compare(&'a str, &'a str),
    /// That the trace in a file is gone through again.
    Trace(&'a str),
    /// That it is the generated program of so many pairs.
    Make(&'a str),
}

/// What may stand beside what is asked for.
#[derive(Clone, Copy)]
pub struct Companions {
    /// Workers and strategies.
    pub racing: bool,
    pub budget: bool,
    pub state: bool,
}

// With one option more, where it is given.
fn and_asks<'a>(asked: Option<Wanted<'a>>, more: Option<Wanted<'a>>) -> Option<Wanted<'a>>
    ensures { let before = option_map wanted_shape asked.entry in
        let added = option_map wanted_shape more.entry in
        option_map wanted_shape result ≡ and_asks_shape before added }
{
    let Some(wanted) = more else {
        return asked;
    };
    match asked {
        Some(Wanted::Run) => Some(wanted),
        _ => None,
    }
}

fn flag_asks<'a>(given: bool, wanted: Wanted<'a>) -> Option<Wanted<'a>>
    ensures { option_map wanted_shape result ≡ flag_asks_shape given (wanted_shape wanted.entry) }
{
    if given { Some(wanted) } else { None }
}

fn save_asks<'a>(save: bool, checkpoint: Option<&'a str>) -> Option<Wanted<'a>>
    ensures { let asked = save_asks_shape save (text_behind checkpoint.entry) in
        option_map wanted_shape result ≡ asked }
{
    match checkpoint {
        None => flag_asks(save, Wanted::Save),
        Some(checkpoint) if save => Some(Wanted::SaveAgain(checkpoint)),
        Some(checkpoint) => Some(Wanted::Resume(checkpoint)),
    }
}

fn replay_asks<'a>(report: Option<&'a str>, other: Option<&'a str>) -> Option<Wanted<'a>>
    ensures { let asked = replay_asks_shape (text_behind report.entry) in
        option_map wanted_shape result ≡ asked (text_behind other.entry) }
{
    let Some(report) = report else {
        return None;
    };
    match other {
        Some(other) => Some(Wanted::Compare(report, other)),
        None => Some(Wanted::Replay(report)),
    }
}

fn trace_asks<'a>(trace: Option<&'a str>) -> Option<Wanted<'a>>
    ensures { option_map wanted_shape result ≡ option_map Trace (text_behind trace.entry) }
{
    match trace {
        Some(trace) => Some(Wanted::Trace(trace)),
        None => None,
    }
}

fn make_asks<'a>(pairs: Option<&'a str>) -> Option<Wanted<'a>>
    ensures { option_map wanted_shape result ≡ option_map Make (text_behind pairs.entry) }
{
    match pairs {
        Some(pairs) => Some(Wanted::Make(pairs)),
        None => None,
    }
}

/// The one task asked for: a line for each option that asks for one.
pub fn wanted_in<'a>(texts: &Texts<'a>) -> Option<Wanted<'a>>
    ensures { option_map wanted_shape result ≡ wanted_among (texts_shape texts.now) }
{
    let asked = and_asks(Some(Wanted::Run), flag_asks(texts.check, Wanted::Check));
    let asked = and_asks(asked, flag_asks(texts.determinate, Wanted::Rule));
    let asked = and_asks(asked, flag_asks(texts.journal, Wanted::Journal));
    let asked = and_asks(asked, save_asks(texts.save, texts.resume));
    let asked = and_asks(asked, replay_asks(texts.replay, texts.same));
    let asked = and_asks(asked, trace_asks(texts.trace));
    and_asks(asked, make_asks(texts.make))
}

/// What may stand beside what is asked for.
pub fn companions_of(wanted: Wanted<'_>) -> Companions
    ensures { companions_shape result ≡ companions_wanted (wanted_shape wanted.entry) }
{
    match wanted {
        Wanted::Run => Companions {
            racing: true,
            budget: true,
            state: true,
        },
        Wanted::Check => Companions {
            racing: false,
            budget: false,
            state: false,
        },
        Wanted::Rule => Companions {
            racing: true,
            budget: true,
            state: false,
        },
        Wanted::Journal => Companions {
            racing: true,
            budget: true,
            state: false,
        },
        Wanted::Resume(_) => Companions {
            racing: true,
            budget: true,
            state: true,
        },
        Wanted::Save | Wanted::SaveAgain(_) => Companions {
            racing: true,
            budget: true,
            state: false,
        },
        Wanted::Replay(_) => Companions {
            racing: false,
            budget: false,
            state: true,
        },
        Wanted::Compare(_, _) => Companions {
            racing: false,
            budget: false,
            state: false,
        },
        Wanted::Trace(_) => Companions {
            racing: false,
            budget: true,
            state: true,
        },
        Wanted::Make(_) => Companions {
            racing: true,
            budget: true,
            state: false,
        },
    }
}

fn is_racing(texts: &Given<'_>) -> bool
    ensures { result ≡ is_racing_given (given_shape texts.now) }
{
    texts.workers.is_some() || texts.strategy.is_some() || texts.update.is_some()
}

fn is_allowed(may: bool, given: bool) -> bool
    ensures { result ≡ is_allowed_beside may given }
{
    may || !given
}

/// Whether all that is given may stand there.
pub fn stand(companions: &Companions, texts: &Texts<'_>) -> bool
    ensures { result ≡ stand_beside (companions_shape companions.now) (texts_shape texts.now) }
{
    is_allowed(companions.racing, is_racing(&texts.settings))
        && is_allowed(companions.budget, texts.settings.budget.is_some())
        && is_allowed(companions.state, texts.state.is_some())
        && is_allowed(texts.replay.is_some(), texts.same.is_some())
}
