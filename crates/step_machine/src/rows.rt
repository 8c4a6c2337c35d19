//! What a redex makes of a machine.

ghost use Rattle.std.specs.Prelude.{◌≡◌, ◌++◌, IfSome, OnOk, drop, reverse};
ghost use Rattle.code_laws.specs.Places.{leaf_place};
ghost use Rattle.step_machine.specs.Rows.{
  bound_view,
  called_view,
  child_view,
  environment_view,
  node_view,
  place_view,
  toward,
  without_last,
};
ghost use Rattle.step_machine.specs.Stacks.{last, top};
ghost use Rattle.step_machine.specs.Standing.{view_of};
ghost use Rattle.code_table.specs.Places.{placed};

use crate::frames::Focus;
use crate::machine::Machine;
use code_table::{Child, Leaf, Places};
use std::alloc::AllocError;

impl Machine {
    /// Takes off the last operands.
    #[inline(always)]
    pub fn take_off(&mut self, count: usize)
        ensures view { view_of self.new ≡ without_last count (view_of self.old) }
    {
        let left = self.operands.len().saturating_sub(count);
        self.operands.truncate(left);
    }

    /// The last operands.
    #[inline(always)]
    pub fn last_operands(&self, count: usize) -> &[usize]
        ensures operands { result.now ≡ last count self.now.operands.items }
    {
        let first = self.operands.len().saturating_sub(count);
        &self.operands[first..]
    }

    /// The redex of the last operands has become a place.
    #[inline(always)]
    pub fn become_place(&mut self, count: usize, place: usize)
        ensures view { view_of self.new ≡ place_view count place (view_of self.old) }
    {
        self.take_off(count);
        self.look_at(Focus::Place(place));
    }

    /// It has become a node of which so many terms are gone.
    #[inline(always)]
    pub fn become_node(&mut self, count: usize, number: usize, from: usize)
        ensures view { view_of self.new ≡ node_view count number from (view_of self.old) }
    {
        self.take_off(count);
        self.look_at(Focus::Node {
            number,
            from,
            done: 0,
        });
    }

    /// The place of a variable.
    #[inline(always)]
    pub fn place_of(&self, leaf: &Leaf) -> Option<usize>
        ensures place { IfSome result
            (λ p. p ≡ leaf_place (drop self.now.base self.now.env.items) leaf.now) }
    {
        let slot = match leaf {
            Leaf::Own(slot, _) => *slot,
            Leaf::Kept(slot) => *slot,
        };
        match self.base.checked_add(slot) {
            Some(at) => match self.env.get(at) {
                Some(place) => Some(*place),
                None => None,
            },
            None => None,
        }
    }

    /// Where a child leads.
    #[inline(always)]
    fn toward(&self, child: &Child) -> Option<Focus>
        ensures focus { IfSome result
            (λ f. f ≡ toward (drop self.now.base self.now.env.items) child.now) }
    {
        match child {
            Child::Leaf(leaf) => match self.place_of(leaf) {
                Some(place) => Some(Focus::Place(place)),
                None => None,
            },
            Child::Node(number) => Some(Focus::Node {
                number: *number,
                from: 0,
                done: 0,
            }),
        }
    }

    /// The redex of the last operands has become a term below its node.
    #[inline(always)]
    pub fn become_child(&mut self, count: usize, child: &Child) -> Result<(), AllocError>
        ensures view { OnOk result
            (view_of self.new ≡ child_view count child.now (view_of self.old)) }
    {
        self.take_off(count);
        let Some(focus) = self.toward(child) else {
            return Err(AllocError);
        };
        self.look_at(focus);
        Ok(())
    }

    /// The same, where the environment grows by a place.
    pub fn bind(&mut self, count: usize, place: usize, child: &Child) -> Result<(), AllocError>
        ensures view { OnOk result
            (view_of self.new ≡ bound_view count place child.now (view_of self.old)) }
    {
        self.env.push(place)?;
        self.become_child(count, child)
    }

    /// Where the environment of the innermost frame ends.
    #[inline(always)]
    pub fn top_height(&self) -> usize
        ensures height { result ≡ top (reverse self.now.frames.items) }
    {
        match self.frames.last() {
            Some(frame) => frame.height,
            None => 0,
        }
    }

    #[inline(always)]
    fn put_environment(&mut self, count: usize, captured: &Places) -> Result<(), AllocError>
        ensures view { OnOk result
            (view_of self.new ≡ environment_view count (placed captured.now) (view_of self.old)) }
    {
        let height = self.top_height();
        let first = self.operands.len().saturating_sub(count);
        self.env.truncate(height);
        self.base = self.env.len();
        captured.push_to(&mut self.env)?;
        push_all(&mut self.env, &self.operands[first..])?;
        Ok(())
    }

    /// A call of the last operands has become a method's body, behind what the method captured.
    #[inline(always)]
    pub fn enter_body(
        &mut self,
        count: usize,
        captured: &Places,
        body: &Child,
    ) -> Result<(), AllocError>
        ensures view { OnOk result
            (view_of self.new ≡ called_view count (placed captured.now) body.now (view_of self.old)) }
    {
        self.put_environment(count, captured)?;
        self.become_child(count, body)
    }
}

// Appends places one by one, since most bodies have few.
#[inline(always)]
fn push_all(env: &mut Vec<usize>, places: &[usize]) -> Result<(), AllocError>
    ensures places { OnOk result (env.new.items ≡ env.old.items ++ places.now) }
{
    env.reserve(places.len())?;
    for place in places {
        env.push_reserved(*place);
    }
    Ok(())
}
