//! Groups of calls: a call on a group, or a `scatter`, becomes a call of each member.

ghost use Rattle.std.specs.Prelude.{
  ◌≡◌,
  ◌+◌,
  ◌++◌,
  IfOk,
  IfSome,
  List,
  OnOk,
  length,
  true,
};
ghost use Rattle.asp_model.specs.Configuration.{ServiceShape};
ghost use Rattle.asp_model.specs.Term.{Tree};
ghost use Rattle.code_table.specs.Sound.{IsSound};
ghost use Rattle.step_machine.specs.declared.frames.Focus.TheVariants as focus;
ghost use Rattle.step_machine.specs.Calls.{IsRoundAt, beside_count, round_in};
ghost use Rattle.step_machine.specs.Spreads.{spread_view};
ghost use Rattle.step_machine.specs.Standing.{Standing, view_of};
ghost use Rattle.step_machine.specs.Views.{Settled, all_done, dealt_view};
ghost use Rattle.code_table.specs.Places.{placed};

use crate::frames::{Focus, Form, Frame, Spread};
use crate::machine::Machine;
use crate::nodes::{in_place_count, node_at};
use code_table::{Node, Places};
use std::alloc::AllocError;

/// Where the places of a call stand among the operands: the receiver, and the arguments.
#[derive(Clone, Copy)]
pub struct Round {
    pub receiver: usize,
    pub first: usize,
    pub end: usize,
}

/// How many calls of a group of calls have their results.
pub fn results_in(spread: Spread, given: usize, members: usize, done: usize) -> Option<usize>
    ensures results { IfSome result
        (λ n. done ≡ given + members + beside_count spread members + n) }
{
    let beside = match spread {
        Spread::Same => 0,
        Spread::Own => members,
    };
    let Some(first) = given.checked_add(members) else {
        return None;
    };
    let Some(all) = first.checked_add(beside) else {
        return None;
    };
    done.checked_sub(all)
}

/// Where the call behind so many others stands, where the operands of the group of calls begin at an
/// index.
pub fn round_at(
    spread: Spread,
    start: usize,
    given: usize,
    members: usize,
    before: usize,
) -> Option<Round>
    ensures round { IfSome result (IsRoundAt spread start given members before) }
{
    let Some(behind) = start.checked_add(given) else {
        return None;
    };
    let Some(receiver) = behind.checked_add(before) else {
        return None;
    };
    match spread {
        Spread::Same => {
            if given == 0 {
                return None;
            }
            Some(Round {
                receiver,
                first: start + 1,
                end: behind,
            })
        }
        Spread::Own => {
            let Some(first) = receiver.checked_add(members) else {
                return None;
            };
            let Some(end) = first.checked_add(1) else {
                return None;
            };
            if given != 2 {
                return None;
            }
            Some(Round {
                receiver,
                first,
                end,
            })
        }
    }
}

/// Whether all calls of a group of calls have their results.
pub fn have_results(
    nodes: &[Node],
    spread: Spread,
    number: usize,
    members: usize,
    done: usize,
) -> bool
    requires sound { IsSound nodes.now }
    ensures there { result ≡ true → done ≡ all_done nodes.now spread number members }
{
    let Some(node) = node_at(nodes, number) else {
        return false;
    };
    let Some(results) = results_in(spread, in_place_count(node, 0), members, done) else {
        return false;
    };
    results == members
}

impl Machine {
    /// The redex of the last operands has become calls of these members, each with the same arguments,
    /// or with one of what stands beside them.
    #[inline(never)]
    pub fn spread(
        &mut self,
        spread: Spread,
        number: usize,
        count: usize,
        members: &Places,
        beside: &Places,
    ) -> Result<(), AllocError>
        ensures view { let old = view_of self.old in OnOk result
            (view_of self.new ≡ spread_view spread number count (placed members.now) (placed beside.now) old) }
    {
        let behind = count.checked_add(members.len()).ok_or(AllocError)?;
        let done = behind.checked_add(beside.len()).ok_or(AllocError)?;
        let height = self.top_height();
        self.env.truncate(height);
        self.base = self.env.len();
        members.push_to(&mut self.operands)?;
        beside.push_to(&mut self.operands)?;
        self.focus = Focus::Calls {
            spread,
            number,
            members: members.len(),
            done,
        };
        Ok(())
    }

    /// Puts the places of a call to the operands, and answers how many they are.
    fn push_round(&mut self, round: Round) -> Result<usize, AllocError>
        ensures view { let old = view_of self.old in let round = round_in round old.operands in
            OnOk result (view_of self.new ≡ record old { operands = old.operands ++ round }) }
        ensures count { IfOk result
            (λ n. n ≡ length (round_in round self.old.operands.items)) }
    {
        let Some(receiver) = self.operands.get(round.receiver) else {
            return Err(AllocError);
        };
        let receiver = *receiver;
        if round.first > round.end || round.end > self.operands.len() {
            return Err(AllocError);
        }
        let count = (round.end - round.first).checked_add(1).ok_or(AllocError)?;
        self.operands.push(receiver)?;
        self.operands.extend_from_within(round.first..round.end)?;
        Ok(count)
    }

    /// Enters the next of the calls.
    fn enter_call(
        &mut self,
        spread: Spread,
        number: usize,
        members: usize,
        done: usize,
        round: Round,
    ) -> Result<(), AllocError>
        ensures view { let old = view_of self.old in let round = round_in round old.operands in
            OnOk result (view_of self.new ≡ dealt_view spread number members done round old) }
    {
        self.frames.push(Frame {
            form: Form::Calls(spread),
            node: number,
            from: members,
            done,
            base: self.base,
            height: self.env.len(),
        })?;
        let count = self.push_round(round)?;
        self.focus = Focus::Called { number, count };
        Ok(())
    }

    /// Goes on to the next of the calls, or stays where all have their results.
    #[inline(never)]
    pub fn deal(
        &mut self,
        nodes: &[Node],
        spread: Spread,
        number: usize,
        members: usize,
        done: usize,
    ) -> Result<(), AllocError>
        requires sound { IsSound nodes.now }
        ensures settled { (t : Tree) (vs : List ServiceShape) →
            Standing nodes.now (view_of self.old) t vs →
            self.old.focus ≡ focus.Calls spread number members done →
            OnOk result (Settled nodes.now t vs (view_of self.new)) }
    {
        let Some(node) = node_at(nodes, number) else {
            return Err(AllocError);
        };
        let given = in_place_count(node, 0);
        let Some(results) = results_in(spread, given, members, done) else {
            return Err(AllocError);
        };
        if results >= members {
            return Ok(());
        }
        let Some(start) = self.operands.len().checked_sub(done) else {
            return Err(AllocError);
        };
        let Some(round) = round_at(spread, start, given, members, results) else {
            return Err(AllocError);
        };
        self.enter_call(spread, number, members, done, round)?;
        Ok(())
    }
}
