//! Where an activity stands.

ghost use Rattle.std.specs.Prelude.{
  ◌≡◌,
  Err,
  IfOk,
  IfSome,
  List,
  OnErr,
  OnOk,
  alloc_error,
  reverse,
  true,
};
ghost use Rattle.asp_model.specs.Configuration.{Activity as ActivityShape};
ghost use Rattle.code_table.specs.declared.code.Node.{Node as NodeShape};
ghost use Rattle.step_machine.specs.declared.frames.Focus.TheVariants as focus;
ghost use Rattle.step_machine.specs.Standing.{Standing as IsStanding, View, view_of};
ghost use Rattle.activity_step.specs.Activities.{StandsFor};
ghost use Rattle.activity_step.specs.Shown.{IsShown};
ghost use Rattle.activity_step.specs.Standings.{IsAt, IsStandingAt, code_of};

use crate::activity::Activity;
use crate::calls::first_and_others;
use crate::reducing::node_in;
use code_table::{Code, Kind, Place};
use std::alloc::AllocError;
use step_machine::{Focus, Machine, Spread, call_label, have_results, in_place_count};
use step_rows::Redex;

/// Where an activity stands.
#[derive(Clone, Copy)]
pub enum Standing<'a> {
    /// Its term is a place.
    Place(Place),
    Redex(Redex<'a>),
}

/// The redex of a node whose terms that are reduced in place are these places.
fn redex_of<'a>(kind: &'a Kind, operands: &'a [Place]) -> Option<Redex<'a>>
    ensures shown { IfSome result (IsShown kind.now operands.now) }
{
    match (kind, operands) {
        (Kind::Get(label), [at]) => Some(Redex::Get(*at, label.label.as_label())),
        (Kind::Put(label), [at, to]) => Some(Redex::Put(*at, label.label.as_label(), *to)),
        (Kind::Call(label), [at, arguments @ ..]) => Some(Redex::Call(
            *at,
            &label.label,
            arguments,
        )),
        (Kind::Clone, [at]) => Some(Redex::Clone(*at)),
        (Kind::Active(label), [at]) => Some(Redex::Active(*at, label.as_ref())),
        (Kind::Serve(labels), []) => Some(Redex::Serve(labels)),
        (Kind::Pending(labels), []) => Some(Redex::Pending(labels)),
        (Kind::If, [at]) => Some(Redex::If(*at)),
        (Kind::Operate(sign), [first, second]) => Some(Redex::Operate(*sign, *first, *second)),
        (Kind::Print, [at]) => Some(Redex::Print(*at)),
        (Kind::Scatter(label), [at, other]) => Some(Redex::Scatter(
            *at,
            label.label.as_label(),
            *other,
        )),
        (Kind::Size, [at]) => Some(Redex::Size(*at)),
        (Kind::Member, [at, number]) => Some(Redex::Member(*at, *number)),
        (Kind::WaitAll, [at]) => Some(Redex::WaitAll(*at)),
        (Kind::Number(_), _)
        | (Kind::Make(_), _)
        | (Kind::Let(_), _)
        | (Kind::Steps, _)
        | (Kind::Repeat, _)
        | (Kind::Echo(_), _)
        | (Kind::Group, _) => Some(Redex::Goes),
        _ => None,
    }
}

/// The redex of a node, once its terms that are reduced in place are done.
fn redex_at<'a>(
    code: &'a Code,
    machine: &'a Machine,
    number: usize,
    from: usize,
    done: usize,
) -> Result<Redex<'a>, AllocError>
    ensures redex { (a : ActivityShape) →
        IsStanding code.now (view_of machine.now) a.term (reverse a.services) →
        machine.now.focus ≡ focus.Node number from done → IfOk result (IsAt a) }
{
    let Some(node) = node_in(code, number) else {
        return Err(AllocError);
    };
    if done != in_place_count(node, from) {
        return Err(AllocError);
    }
    let Some(redex) = redex_of(&node.kind, machine.last_operands(done)) else {
        return Err(AllocError);
    };
    Ok(redex)
}

/// The call that a service begins with.
fn asked_redex<'a>(machine: &'a Machine, count: usize) -> Result<Redex<'a>, AllocError>
    ensures redex { (k : List NodeShape) (a : ActivityShape) →
        IsStanding k (view_of machine.now) a.term (reverse a.services) →
        machine.now.focus ≡ focus.Asked count → IfOk result (IsAt a) }
{
    let Some((at, arguments)) = first_and_others(machine.last_operands(count)) else {
        return Err(AllocError);
    };
    Ok(Redex::Call(at, &machine.asked.label, arguments))
}

/// A group of calls that all have their results: it contracts, whatever these are.
fn results_redex<'a>(
    code: &Code,
    spread: Spread,
    number: usize,
    members: usize,
    done: usize,
) -> Result<Redex<'a>, AllocError>
    ensures redex { (a : ActivityShape) (v : View) →
        IsStanding code.now v a.term (reverse a.services) →
        v.focus ≡ focus.Calls spread number members done → IfOk result (IsAt a) }
{
    if have_results(code.nodes(), spread, number, members, done) {
        Ok(Redex::Goes)
    } else {
        Err(AllocError)
    }
}

/// The call of a member.
fn called_redex<'a>(
    code: &'a Code,
    machine: &'a Machine,
    number: usize,
    count: usize,
) -> Result<Redex<'a>, AllocError>
    ensures redex { (a : ActivityShape) →
        IsStanding code.now (view_of machine.now) a.term (reverse a.services) →
        machine.now.focus ≡ focus.Called number count → IfOk result (IsAt a) }
{
    let Some(node) = node_in(code, number) else {
        return Err(AllocError);
    };
    let Some(label) = call_label(node) else {
        return Err(AllocError);
    };
    let Some((at, arguments)) = first_and_others(machine.last_operands(count)) else {
        return Err(AllocError);
    };
    Ok(Redex::Call(at, &label.label, arguments))
}

impl Activity {
    /// Goes on to the next redex, or to the place that the term is.
    #[inline(never)]
    fn go_on(&mut self) -> Result<(), AllocError>
        ensures stands { (a : ActivityShape) → StandsFor self.old a →
            OnOk result (StandsFor self.new a) }
        ensures store { self.new.state.store ≡ self.old.state.store }
        ensures still { self.new.spent ≡ self.old.spent }
        ensures code { code_of self.new ≡ code_of self.old }
    {
        let nodes = self.code.nodes();
        self.state.machine.settle(nodes)
    }

    /// Goes on to the next redex, or to the place that the term is. It takes no reduction. After
    /// `AllocError` it is spent.
    pub fn settle(&mut self) -> Result<(), AllocError>
        ensures stands { (a : ActivityShape) → StandsFor self.old a →
            OnOk result (StandsFor self.new a) }
        ensures store { OnOk result (self.new.state.store ≡ self.old.state.store) }
        ensures spent { self.old.spent ≡ true → result ≡ Err alloc_error }
        ensures gives_up { OnErr result (self.new.spent ≡ true) }
        ensures still { OnOk result (self.new.spent ≡ self.old.spent) }
        ensures code { code_of self.new ≡ code_of self.old }
    {
        self.unspent()?;
        if self.state.machine.is_at_redex(self.code.nodes()) {
            return Ok(());
        }
        let outcome = self.go_on();
        self.noted(outcome)
    }

    /// Where it stands, once it has settled.
    pub fn standing(&self) -> Result<Standing<'_>, AllocError>
        ensures standing { (a : ActivityShape) → StandsFor self.now a →
            IfOk result (IsStandingAt a) }
        ensures spent { self.now.spent ≡ true → result ≡ Err alloc_error }
    {
        self.unspent()?;
        let machine = &self.state.machine;
        match machine.focus {
            Focus::Place(place) => {
                if machine.is_alone() {
                    Ok(Standing::Place(place))
                } else {
                    Err(AllocError)
                }
            }
            Focus::Asked(count) => Ok(Standing::Redex(asked_redex(machine, count)?)),
            Focus::Calls {
                spread,
                number,
                members,
                done,
            } => {
                let redex = results_redex(&self.code, spread, number, members, done)?;
                Ok(Standing::Redex(redex))
            }
            Focus::Called { number, count } => {
                let redex = called_redex(&self.code, machine, number, count)?;
                Ok(Standing::Redex(redex))
            }
            Focus::Node { number, from, done } => {
                let redex = redex_at(&self.code, machine, number, from, done)?;
                Ok(Standing::Redex(redex))
            }
        }
    }
}
