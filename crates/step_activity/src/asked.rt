//! What a redex asks of others.

ghost use Rattle.std.specs.Prelude.{◌≡◌, ◌<◌, List, length, map};
ghost use Rattle.asp_model.specs.Configuration as model;
ghost use Rattle.asp_model.specs.Contraction.{contract};
ghost use Rattle.asp_model.specs.Split as terms;
ghost use Rattle.asp_model.specs.Split.{Context, Splits, split};
ghost use Rattle.serve_rules.specs.Labels.{label_text};
ghost use Rattle.activity_step.specs.Activities.{StandsFor};
ghost use Rattle.activity_step.specs.Standings.{IsAt};
ghost use Rattle.step_activity.specs.Actors.{IsClosedFor};
ghost use Rattle.step_activity.specs.Asking.{
  IsAsked,
  IsPlaced,
  IsWithin,
  asked_in,
  asked_shape,
  labels_in,
};

use crate::actor::Actor;
use asp_model::{ActivityName, Label};
use code_table::{Place, SharedLabel, View};
use object_store::Store;
use step_rows::Redex;

/// What a redex asks of others.
#[derive(Clone, Copy)]
pub enum Asked<'a> {
    /// An activity round this object, with a service for ever or a call of this method.
    Creates(Place, Option<&'a SharedLabel>),
    /// A request to this activity.
    Sends(&'a ActivityName, &'a SharedLabel, &'a [Place]),
    /// The oldest request with one of these labels.
    Serves(&'a [Label]),
    /// Whether a request with one of these labels is pending.
    Polls(&'a [Label]),
    Nothing,
}

/// What a redex asks of others, as the store stands.
fn asked_at<'a>(store: &'a Store, redex: Redex<'a>) -> Asked<'a>
    requires placed { IsPlaced (length store.now.cells) redex }
    ensures asked { asked_shape result ≡ asked_in store.now.cells redex.entry }
{
    match redex {
        Redex::Active(object, service) => match store.cell(object) {
            View::Object(_) => Asked::Creates(object, service),
            _ => Asked::Nothing,
        },
        Redex::Call(place, label, arguments) => match store.cell(place) {
            View::Reference(name) => Asked::Sends(name, label, arguments),
            _ => Asked::Nothing,
        },
        Redex::Serve(labels) => Asked::Serves(labels),
        Redex::Pending(labels) => Asked::Polls(labels),
        _ => Asked::Nothing,
    }
}

impl Actor {
    /// What a redex at which it stands asks of others, as its store stands: nothing where an operand
    /// is a future.
    pub(crate) fn asks<'a>(&'a self, redex: Redex<'a>) -> Asked<'a>
        requires closed { IsClosedFor self.now }
        requires stands { (a : model.Activity) → StandsFor self.now.activity a → IsAt a redex }
        ensures asked { (a : model.Activity) (cs : List Context) (r : terms.Redex) →
            StandsFor self.now.activity a → split a.term ≡ Splits cs r →
            IsAsked (asked_shape result) (contract a.store r) }
        ensures within { IsWithin (length self.now.activity.state.store.cells) (asked_shape result) }
    {
        asked_at(self.activity.store(), redex)
    }
}

/// The labels that a `serve` has.
pub fn served_labels(redex: Redex<'_>) -> &'_ [Label]
    ensures labels { map label_text result.now ≡ labels_in redex.entry }
{
    match redex {
        Redex::Serve(labels) => labels,
        _ => &[],
    }
}
