//! One advance: on to the next redex, and what it comes to.

ghost use Rattle.std.specs.Prelude.{◌≡◌, IfOk, IfSome, List, ℕ};
ghost use Rattle.asp_model.specs.Configuration.{ServiceShape};
ghost use Rattle.asp_model.specs.Contraction.{LineShape};
ghost use Rattle.asp_model.specs.Store.{Store as StoreShape};
ghost use Rattle.asp_model.specs.Term.{Tree};
ghost use Rattle.code_table.specs.Classes.{class_at, class_of};
ghost use Rattle.code_table.specs.Sound.{IsSound};
ghost use Rattle.code_table.specs.Tables.{kind_head, node_piece, piece_at, pieces};
ghost use Rattle.code_laws.specs.Nodes.{in_place, operand_count};
ghost use Rattle.step_rows.specs.Decisions.{value_redex};
ghost use Rattle.step_machine.specs.declared.frames.Focus.TheVariants as focus;
ghost use Rattle.step_machine.specs.Rows.{IsAtRedex};
ghost use Rattle.step_machine.specs.Stacks.{last, piece_from};
ghost use Rattle.step_machine.specs.Standing.{view_of};
ghost use Rattle.activity_step.specs.Advances.{IsAdvance, Stands};

use crate::advance::Advance;
use crate::state::State;
use code_table::{Code, Kind, Node};
use std::alloc::{AllocError, Global};
use step_machine::{Focus, node_at};
use step_rows::Decision;

/// The node with a number.
#[inline(always)]
pub fn node_in<'a>(code: &'a Code, number: usize) -> Option<&'a Node>
    ensures piece { IfSome result
        (λ n. piece_at (pieces code.now) number ≡ node_piece (pieces code.now) n.now) }
    ensures class { IfSome result (λ n. class_at code.now number ≡ class_of n.now.kind) }
    ensures sound { IsSound code.now }
{
    let nodes = code.nodes();
    let Some(node) = node_at(nodes, number) else {
        return None;
    };
    Some(node)
}

impl State {
    /// A redex whose terms are all places, of a kind that is rarer.
    #[inline(never)]
    fn simple_advance(
        &mut self,
        alloc: Global,
        code: &Code,
        kind: &Kind,
        count: usize,
        go: bool,
    ) -> Result<Advance, AllocError>
        ensures advance { (size : ℕ) (t : Tree) (vs : List ServiceShape) (s : StoreShape)
            (ls : List LineShape) →
            IsSound code.now → Stands code.now self.old t vs s ls →
            IsAtRedex code.now (view_of self.old.machine) t vs count
            (value_redex (kind_head kind.now) (last count self.old.machine.operands.items)) →
            count ≡ operand_count kind.now size →
            IfOk result (IsAdvance code.now self.new t vs s ls go) }
    {
        match kind {
            Kind::Echo(text) => self.echo_advance(alloc, text, count, go),
            Kind::Group => self.group_advance(alloc, count, count, go),
            Kind::Active(_) => self.active_advance(alloc, count, go),
            Kind::Serve(_) => Ok(Advance::Serves),
            Kind::Pending(_) => Ok(Advance::Polls),
            Kind::Clone => self.value_advance(alloc, code, kind, count, go),
            Kind::Print => self.value_advance(alloc, code, kind, count, go),
            Kind::Size => self.value_advance(alloc, code, kind, count, go),
            Kind::Member => self.value_advance(alloc, code, kind, count, go),
            Kind::WaitAll => self.value_advance(alloc, code, kind, count, go),
            _ => Err(AllocError),
        }
    }

    /// The redex of a node whose terms that are reduced in place are done. What a call that is not
    /// inlined answers is kept apart, so that the answer itself needs no memory.
    #[inline(always)]
    fn reduce(
        &mut self,
        alloc: Global,
        code: &Code,
        number: usize,
        from: usize,
        count: usize,
        go: bool,
    ) -> Result<Advance, AllocError>
        ensures advance { (t : Tree) (vs : List ServiceShape) (s : StoreShape) (ls : List LineShape) →
            Stands code.now self.old t vs s ls →
            self.old.machine.focus ≡ focus.Node number from count →
            count ≡ in_place (piece_from code.now number from) →
            IfOk result (IsAdvance code.now self.new t vs s ls go) }
    {
        let Some(node) = node_in(code, number) else {
            return Err(AllocError);
        };
        match &node.kind {
            Kind::Make(class) => Ok(self.make_advance(alloc, class, number, count, go)?),
            Kind::Call(label) => self.call_advance(alloc, code, label, number, count, go),
            Kind::Scatter(_) => Ok(self.scatter_advance(alloc, number, count, go)?),
            Kind::Let(_) => Ok(self.let_advance(node, count, go)?),
            Kind::Steps => self.steps_advance(node, number, from, count, go),
            Kind::If => self.if_advance(alloc, code, node, count, go),
            Kind::Repeat => self.repeat_advance(number, from, count, go),
            Kind::Number(n) => self.decided_advance(alloc, Decision::Number(*n), count, go),
            Kind::Get(_) => self.value_advance(alloc, code, &node.kind, count, go),
            Kind::Put(_) => self.value_advance(alloc, code, &node.kind, count, go),
            Kind::Operate(_) => self.value_advance(alloc, code, &node.kind, count, go),
            Kind::Clone
            | Kind::Active(_)
            | Kind::Serve(_)
            | Kind::Pending(_)
            | Kind::Print
            | Kind::Echo(_)
            | Kind::Group
            | Kind::Size
            | Kind::Member
            | Kind::WaitAll => Ok(self.simple_advance(alloc, code, &node.kind, count, go)?),
        }
    }

    /// Goes on to the next redex, and takes its contraction where it may, or tells what it comes to.
    #[inline(always)]
    pub fn advance(&mut self, alloc: Global, code: &Code, go: bool) -> Result<Advance, AllocError>
        ensures advance { (t : Tree) (vs : List ServiceShape) (s : StoreShape) (ls : List LineShape) →
            Stands code.now self.old t vs s ls →
            IfOk result (IsAdvance code.now self.new t vs s ls go) }
    {
        self.machine.settle(code.nodes())?;
        match self.machine.focus {
            Focus::Node { number, from, done } => self.reduce(alloc, code, number, from, done, go),
            Focus::Place(place) => Ok(Advance::Rests(place)),
            Focus::Asked(count) => Ok(self.asked_advance(alloc, code, count, go)?),
            Focus::Calls {
                spread: _spread,
                number: _number,
                members,
                done,
            } => Ok(self.group_advance(alloc, members, done, go)?),
            Focus::Called { number, count } => Ok(self.called_advance(
                alloc, code, number, count, go,
            )?),
        }
    }
}
