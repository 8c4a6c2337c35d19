//! The machine.

ghost use Rattle.std.specs.Prelude.{
  ◌≡◌,
  ◌++◌,
  ◌∷◌,
  [],
  IfNone,
  IfOk,
  IfSome,
  List,
  OnOk,
  false,
  reverse,
  true,
};
ghost use Rattle.asp_model.specs.Term.{Tree};
ghost use Rattle.asp_model.specs.Configuration.{ServiceShape};
ghost use Rattle.code_table.specs.declared.code.Node.{Node as NodeShape};
ghost use Rattle.code_table.specs.Sound.{IsSound};
ghost use Rattle.step_machine.specs.declared.frames.Focus.TheVariants as focus;
ghost use Rattle.step_machine.specs.Standing.{Standing, view_of};
ghost use Rattle.step_machine.specs.Views.{
  IsAdvanced,
  IsAlone,
  IsDeeper,
  IsFilled,
  IsInner,
  IsOpen,
  Settled,
  closed_view,
  entered_view,
  onward,
  outer,
  passed_view,
};

use crate::frames::{Focus, Form, Frame};
use crate::nodes::{in_place_count, next_child, node_at};
use code_table::{Child, Future, KeyedLabel, Leaf, Node};
use smallvec::SmallVec;
use std::alloc::AllocError;
use std::sync::Arc;

/// The futures of services. One takes no memory of its own, since a service seldom serves.
pub type Futures = SmallVec<Option<Arc<Future>>, 1>;

/// The term of an activity, as frames, environments and operands.
pub struct Machine {
    pub frames: Vec<Frame>,
    /// The environments, each behind the one of the frame below.
    pub env: Vec<usize>,
    /// The places of terms that are done.
    pub operands: Vec<usize>,
    /// The futures of the services that are suspended, the newest last.
    pub futures: Futures,
    /// The label of the call that the service began with.
    pub asked: KeyedLabel,
    /// Where the environment begins.
    pub base: usize,
    pub focus: Focus,
}

// Written out, so that crates above drop it by one call.
impl Drop for Machine {
    fn drop(self) {
        let Machine {
            frames: _,
            env: _,
            operands: _,
            futures: _,
            asked: _,
            base: _,
            focus: _,
        } = self;
    }
}

impl Machine {
    /// The innermost frame, where it waits for a term.
    #[inline(always)]
    fn waiting(&self) -> Option<Frame>
        ensures some { IfSome result (λ f. IsOpen f.form
            × (self.now.frames.items ≡ outer self.now.frames.items ++ f ∷ [])) }
        ensures none { IfNone result (IsAlone (reverse self.now.frames.items)) }
    {
        match self.frames.last() {
            Some(frame) => match frame.form {
                Form::Terms => Some(*frame),
                Form::Calls(_) => Some(*frame),
                Form::Service => None,
            },
            None => None,
        }
    }

    /// No frame of the term that runs is left.
    pub fn is_alone(&self) -> bool
        ensures alone { result ≡ true → IsAlone (reverse self.now.frames.items) }
    {
        self.waiting().is_none()
    }

    #[inline(always)]
    fn close(&mut self, frame: Frame, place: usize) -> Result<(), AllocError>
        ensures view { OnOk result
            (view_of self.new ≡ closed_view frame place (view_of self.old)) }
    {
        let done = frame.done.checked_add(1).ok_or(AllocError)?;
        self.frames.pop();
        self.env.truncate(frame.height);
        self.operands.push(place)?;
        self.base = frame.base;
        self.focus = onward(frame, done);
        Ok(())
    }

    /// Gives the place that it looks at to the innermost frame. Answers false where no frame waits.
    #[inline(always)]
    pub fn fill(&mut self, place: usize) -> Result<bool, AllocError>
        ensures filled { (k : List NodeShape) (t : Tree) (vs : List ServiceShape) →
            Standing k (view_of self.old) t vs → self.old.focus ≡ focus.Place place →
            IfOk result (IsFilled k t vs (view_of self.old) (view_of self.new)) }
        ensures inner { IfOk result (λ b. b ≡ true → IsInner self.new.focus) }
    {
        let Some(frame) = self.waiting() else {
            return Ok(false);
        };
        self.close(frame, place)?;
        Ok(true)
    }

    /// Puts the place of a variable to the operands.
    #[inline(always)]
    pub(crate) fn pass(&mut self, leaf: &Leaf) -> Result<(), AllocError>
        ensures view { OnOk result
            (view_of self.new ≡ passed_view leaf.now (view_of self.old)) }
    {
        let slot = match leaf {
            Leaf::Own(slot, _) => *slot,
            Leaf::Kept(slot) => *slot,
        };
        let at = self.base.checked_add(slot).ok_or(AllocError)?;
        let Some(place) = self.env.get(at) else {
            return Err(AllocError);
        };
        let place = *place;
        self.operands.push(place)?;
        Ok(())
    }

    /// Enters a node below a node.
    #[inline(always)]
    pub(crate) fn enter(
        &mut self,
        number: usize,
        from: usize,
        done: usize,
        inner: usize,
    ) -> Result<(), AllocError>
        ensures view { OnOk result
            (view_of self.new ≡ entered_view number from done inner (view_of self.old)) }
    {
        self.frames.push(Frame {
            form: Form::Terms,
            node: number,
            from,
            done,
            base: self.base,
            height: self.env.len(),
        })?;
        self.focus = Focus::Node {
            number: inner,
            from: 0,
            done: 0,
        };
        Ok(())
    }

    /// Looks at something else.
    #[inline(always)]
    pub fn look_at(&mut self, focus: Focus)
        ensures view { view_of self.new ≡ record (view_of self.old) { focus = focus } }
    {
        self.focus = focus;
    }

    /// Goes on to the next node below a node, over the variables before it. Answers true where all the
    /// terms that are reduced in place are done.
    #[inline(always)]
    pub fn advance(
        &mut self,
        nodes: &[Node],
        number: usize,
        from: usize,
        done: usize,
    ) -> Result<bool, AllocError>
        requires sound { IsSound nodes.now }
        ensures advanced { (t : Tree) (vs : List ServiceShape) →
            Standing nodes.now (view_of self.old) t vs →
            self.old.focus ≡ focus.Node number from done →
            IfOk result (IsAdvanced nodes.now t vs number from (view_of self.new)) }
        ensures deeper { IfOk result (λ b. b ≡ false → IsDeeper number self.new.focus) }
    {
        let Some(node) = node_at(nodes, number) else {
            return Err(AllocError);
        };
        let count = in_place_count(node, from);
        let mut done = done;
        while done < count {
            let Some(child) = next_child(node, from, done) else {
                return Err(AllocError);
            };
            match child {
                Child::Leaf(leaf) => self.pass(leaf)?,
                Child::Node(inner) => {
                    // It stands before its parent, so the way down ends.
                    self.enter(number, from, done, *inner)?;
                    return Ok(false);
                }
            }
            done += 1;
        }
        self.look_at(Focus::Node { number, from, done });
        Ok(true)
    }

    /// Goes down to a node whose terms that are reduced in place are done.
    #[inline(always)]
    fn descend(&mut self, nodes: &[Node]) -> Result<(), AllocError>
        requires sound { IsSound nodes.now }
        ensures settled { (t : Tree) (vs : List ServiceShape) →
            Standing nodes.now (view_of self.old) t vs → IsInner self.old.focus →
            OnOk result (Settled nodes.now t vs (view_of self.new)) }
    {
        loop {
            match self.focus {
                Focus::Node { number, from, done } => {
                    if self.advance(nodes, number, from, done)? {
                        return Ok(());
                    }
                }
                Focus::Calls {
                    spread,
                    number,
                    members,
                    done,
                } => return self.deal(nodes, spread, number, members, done),
                Focus::Place(_) => return Ok(()),
                Focus::Asked(_) => return Ok(()),
                Focus::Called { .. } => return Ok(()),
            }
        }
    }

    #[inline(always)]
    fn leave(&mut self, nodes: &[Node], place: usize) -> Result<(), AllocError>
        requires sound { IsSound nodes.now }
        ensures settled { (t : Tree) (vs : List ServiceShape) →
            Standing nodes.now (view_of self.old) t vs → self.old.focus ≡ focus.Place place →
            OnOk result (Settled nodes.now t vs (view_of self.new)) }
    {
        if self.fill(place)? {
            self.descend(nodes)
        } else {
            Ok(())
        }
    }

    /// The place that it looks at.
    #[inline(always)]
    pub(crate) fn place(&self) -> Option<usize>
        ensures some { IfSome result (λ p. self.now.focus ≡ focus.Place p) }
        ensures none { IfNone result (IsInner self.now.focus) }
    {
        match self.focus {
            Focus::Place(place) => Some(place),
            Focus::Node { .. } => None,
            Focus::Asked(_) => None,
            Focus::Calls { .. } => None,
            Focus::Called { .. } => None,
        }
    }

    /// It looks at a node whose terms that are reduced in place are done: it has settled.
    #[inline(always)]
    pub fn is_at_redex(&self, nodes: &[Node]) -> bool
        requires sound { IsSound nodes.now }
        ensures settled { (t : Tree) (vs : List ServiceShape) →
            Standing nodes.now (view_of self.now) t vs → result ≡ true →
            Settled nodes.now t vs (view_of self.now) }
    {
        let Focus::Node { number, from, done } = self.focus else {
            return false;
        };
        let Some(node) = node_at(nodes, number) else {
            return false;
        };
        let count = in_place_count(node, from);
        done == count
    }

    /// Goes to where the next contraction stands, or to the place that the term is.
    #[inline(always)]
    pub fn settle(&mut self, nodes: &[Node]) -> Result<(), AllocError>
        requires sound { IsSound nodes.now }
        ensures settled { (t : Tree) (vs : List ServiceShape) →
            Standing nodes.now (view_of self.old) t vs →
            OnOk result (Settled nodes.now t vs (view_of self.new)) }
    {
        match self.place() {
            Some(place) => self.leave(nodes, place),
            None => self.descend(nodes),
        }
    }
}

/// Where a frame goes on, once so many operands are its own.
#[inline(always)]
fn onward(frame: Frame, done: usize) -> Focus
    ensures focus { result ≡ onward frame.form frame.node frame.from done }
{
    match frame.form {
        Form::Calls(spread) => Focus::Calls {
            spread,
            number: frame.node,
            members: frame.from,
            done,
        },
        Form::Terms => Focus::Node {
            number: frame.node,
            from: frame.from,
            done,
        },
        Form::Service => Focus::Node {
            number: frame.node,
            from: frame.from,
            done,
        },
    }
}
