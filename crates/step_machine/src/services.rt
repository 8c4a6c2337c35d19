//! Services that begin and end.

ghost use Rattle.std.specs.Prelude.{◌≡◌, ◌++◌, ◌∷◌, [], IfOk, IfSome, List, OnOk};
ghost use Rattle.std.specs.Option.{option_map};
ghost use Rattle.code_table.specs.Cells.{held_future};
ghost use Rattle.asp_model.specs.Configuration.{ServiceShape};
ghost use Rattle.asp_model.specs.Term.{Tree};
ghost use Rattle.code_table.specs.Sound.{IsSound};
ghost use Rattle.step_machine.specs.declared.frames.Form.TheVariants as form;
ghost use Rattle.step_machine.specs.Services.{
  IsAtSome,
  IsResumed,
  asked_view,
  marked_view,
  suspended_view,
};
ghost use Rattle.step_machine.specs.Views.{outer};
ghost use Rattle.step_machine.specs.Standing.{Standing, view_of};

use crate::frames::{Focus, Form, Frame};
use crate::machine::Machine;
use code_table::{Future, KeyedLabel, Node, SharedLabel};
use std::alloc::AllocError;
use std::sync::Arc;

impl Machine {
    /// Looks at the call of a label, of these places.
    pub fn ask(
        &mut self,
        label: SharedLabel,
        receiver: usize,
        arguments: &[usize],
    ) -> Result<(), AllocError>
        ensures view { let places = receiver ∷ arguments.now in
            OnOk result
            (view_of self.new ≡ asked_view label.text places (view_of self.old)) }
    {
        let count = arguments.len().checked_add(1).ok_or(AllocError)?;
        self.operands.push(receiver)?;
        self.operands.extend_from_slice(arguments)?;
        self.asked = KeyedLabel::new(label);
        self.focus = Focus::Asked(count);
        Ok(())
    }

    /// Suspends the term, which had a future to answer.
    fn mark(&mut self, future: Option<Arc<Future>>) -> Result<(), AllocError>
        ensures view { OnOk result
            (view_of self.new ≡ marked_view (option_map held_future future) (view_of self.old)) }
    {
        self.frames.push(Frame {
            form: Form::Service,
            node: 0,
            from: 0,
            done: 0,
            base: self.base,
            height: self.env.len(),
        })?;
        self.futures.push(future)?;
        Ok(())
    }

    /// Suspends the term, and looks at the call that the service begins with.
    pub fn suspend(
        &mut self,
        future: Option<Arc<Future>>,
        label: SharedLabel,
        receiver: usize,
        arguments: &[usize],
    ) -> Result<(), AllocError>
        ensures view { let f = option_map held_future future in
            let places = receiver ∷ arguments.now in
            OnOk result
            (view_of self.new ≡ suspended_view f label.text places (view_of self.old)) }
    {
        self.mark(future)?;
        self.ask(label, receiver, arguments)
    }

    /// The innermost frame, where it is a service's.
    fn serving(&self) -> Option<Frame>
        ensures some { IfSome result (λ f. (f.form ≡ form.Service)
            × (self.now.frames.items ≡ outer self.now.frames.items ++ f ∷ [])) }
    {
        match self.frames.last() {
            Some(frame) => match frame.form {
                Form::Service => Some(*frame),
                Form::Terms => None,
                Form::Calls(_) => None,
            },
            None => None,
        }
    }

    /// Ends the service that the term is the result of: what waited for it goes on with a node. Answers
    /// the future that it had to answer.
    pub fn resume(&mut self, number: usize) -> Result<Option<Arc<Future>>, AllocError>
        ensures resumed { let old = view_of self.old in
            IfOk result (λ f. IsResumed number old (view_of self.new) (option_map held_future f)) }
    {
        let Focus::Place(_place) = self.focus else {
            return Err(AllocError);
        };
        let Some(frame) = self.serving() else {
            return Err(AllocError);
        };
        let Some(future) = self.futures.pop() else {
            return Err(AllocError);
        };
        self.frames.pop();
        self.env.truncate(frame.height);
        self.base = frame.base;
        self.focus = Focus::Node {
            number,
            from: 0,
            done: 0,
        };
        Ok(future)
    }

    /// Goes to the redex, and answers how many of the last operands are its own.
    pub fn redex(&mut self, nodes: &[Node]) -> Result<usize, AllocError>
        requires sound { IsSound nodes.now }
        ensures redex { (t : Tree) (vs : List ServiceShape) →
            Standing nodes.now (view_of self.old) t vs →
            IfOk result (IsAtSome nodes.now (view_of self.new) t vs) }
    {
        self.settle(nodes)?;
        match self.focus {
            Focus::Node {
                number: _number,
                from: _from,
                done,
            } => Ok(done),
            Focus::Asked(count) => Ok(count),
            Focus::Calls {
                spread: _spread,
                number: _number,
                members: _members,
                done,
            } => Ok(done),
            Focus::Called {
                number: _number,
                count,
            } => Ok(count),
            Focus::Place(_) => Err(AllocError),
        }
    }
}
