//! Where in the text of its program an activity stands.

ghost use Rattle.std.specs.Prelude.{◌≡◌};
ghost use Rattle.asp_model.specs.Configuration.{Activity as ActivityShape};
ghost use Rattle.activity_step.specs.Activities.{StandsFor};
ghost use Rattle.activity_step.specs.Places.{IsPlaceOf, looked_at, mark_in, mark_of};
ghost use Rattle.activity_step.specs.Standings.{code_of};

use crate::activity::Activity;
use code_table::{EMPTY_NUMBER, Node};
use step_machine::Focus;

/// The node that a machine looks at, by its number: none where it has come to a place, or to the
/// call that a service begins with.
fn looked_at(focus: Focus) -> Option<usize>
    ensures node { result ≡ looked_at focus }
{
    match focus {
        Focus::Node { number, .. } => Some(number),
        Focus::Calls { number, .. } => Some(number),
        Focus::Called { number, .. } => Some(number),
        Focus::Place(_place) => None,
        Focus::Asked(_count) => None,
    }
}

/// The byte of the text where a node stood: none of the first nodes, which are every program's.
fn mark_of(nodes: &[Node], number: usize) -> Option<usize>
    ensures mark { result ≡ mark_of nodes.now number }
{
    if number <= EMPTY_NUMBER {
        return None;
    }
    match nodes.get(number) {
        Some(node) => Some(node.mark),
        None => None,
    }
}

/// The byte of the text where the node stood that a machine looks at.
fn mark_in(nodes: &[Node], number: Option<usize>) -> Option<usize>
    ensures mark { result ≡ mark_in nodes.now number }
{
    match number {
        Some(number) => mark_of(nodes, number),
        None => None,
    }
}

impl Activity {
    /// The byte of the text where the node stood at which the activity is. There is none where its
    /// term is done, or is the call that a service begins with.
    pub fn mark(&self) -> Option<usize>
        ensures place { (a : ActivityShape) → StandsFor self.now a →
            IsPlaceOf (code_of self.now) a result }
    {
        mark_in(self.code.nodes(), looked_at(self.state.machine.focus))
    }
}
