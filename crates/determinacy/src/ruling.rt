//! Whether a run is the only one.

ghost use Rattle.std.specs.Prelude.{◌≡◌, map};
ghost use Rattle.std.specs.List.{list_all};
ghost use Rattle.std.specs.Option.{option_map};
ghost use Rattle.asp_model.specs.Configuration.{From};
ghost use Rattle.asp_model.specs.Names.{Name};
ghost use Rattle.asp_model.specs.Outcome.{lists_in};
ghost use Rattle.asp_model.specs.Shapes.{activity_shape, outcome_shape, reception_shape};
ghost use Rattle.asp_model.specs.Step.{same_reception};
ghost use Rattle.law_steps.specs.Joins.{AreNarrow, is_narrow as is_narrow_log};
ghost use Rattle.determinacy.specs.Rulings.{
  Determinate,
  IsLeastOpen,
  LogsAscend,
  Open,
  first_open as open_among,
  ruled,
  ruling_shape,
};

use asp_model::{ActivityName, ActivityReport, Outcome, Reception, Verdict};

/// What the logs of a run say of all other runs of its program.
#[derive(Clone, Copy, Debug)]
pub enum Ruling<'a> {
    /// It ended, and each log names one sender at most and no poll: no run ends in another way.
    Determinate,
    /// It ended, and this is the first activity whose log is not so.
    Open(&'a ActivityName),
    /// The budget ran out.
    NotEnded,
}

fn all_from(log: &[Reception], name: &ActivityName) -> bool
    ensures { let shapes = map reception_shape log.now in
        result ≡ list_all (same_reception (From name.now)) shapes }
{
    for place in 0..log.len() {
        let Reception::From(sender) = &log[place] else {
            return false;
        };
        if name != sender {
            return false;
        }
    }
    true
}

fn is_narrow(log: &[Reception]) -> bool
    ensures { result ≡ is_narrow_log (map reception_shape log.now) }
{
    match log.split_first() {
        None => true,
        Some((Reception::Poll, _)) => false,
        Some((Reception::From(sender), later)) => all_from(later, sender),
    }
}

fn first_open(activities: &[ActivityReport]) -> Option<&ActivityName>
    ensures { let shapes = map activity_shape activities.now in
        option_map (λ n. n.now) result ≡ open_among shapes }
{
    for place in 0..activities.len() {
        let activity = &activities[place];
        if !is_narrow(&activity.senders) {
            return Some(&activity.name);
        }
    }
    None
}

/// Whether the logs of an outcome say that there is no other.
pub fn rule(outcome: &Outcome) -> Ruling<'_>
    ensures ruling { ruling_shape result ≡ ruled (outcome_shape outcome.now) }
    ensures narrow { ruling_shape result ≡ Determinate →
        AreNarrow (lists_in (outcome_shape outcome.now)) }
    ensures least { let logs = lists_in (outcome_shape outcome.now) in LogsAscend logs →
        (n : Name) → ruling_shape result ≡ Open n → IsLeastOpen logs n }
{
    match outcome.verdict {
        Verdict::Budget => Ruling::NotEnded,
        Verdict::End | Verdict::Blocked => match first_open(&outcome.activities) {
            Some(name) => Ruling::Open(name),
            None => Ruling::Determinate,
        },
    }
}
