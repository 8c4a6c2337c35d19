//! The next contraction, where a machine comes to it without a frame round a redex of variables and
//! numbers.

ghost use Rattle.std.specs.Prelude.{◌≡◌, ◌<◌, ℕ, IfOk, IfSome, List, OnOk, drop, false};
ghost use Rattle.asp_model.specs.Configuration.{ServiceShape};
ghost use Rattle.asp_model.specs.Term.{Tree};
ghost use Rattle.code_laws.specs.Nodes.{in_place, nth, parts};
ghost use Rattle.code_table.specs.declared.code.Kind.TheVariants as kind;
ghost use Rattle.code_table.specs.declared.code.Node.{Node as NodeShape};
ghost use Rattle.code_table.specs.Pieces.{Piece};
ghost use Rattle.code_table.specs.Sound.{IsSound};
ghost use Rattle.code_table.specs.Tables.{piece_at, pieces};
ghost use Rattle.step_machine.specs.declared.frames.Focus.TheVariants as focus;
ghost use Rattle.step_machine.specs.Sites.{IsRedexOf, IsSite, IsVariable, given_view, is_found};
ghost use Rattle.step_machine.specs.Stacks.{piece_from};
ghost use Rattle.step_machine.specs.Standing.{Standing, view_of};
ghost use Rattle.step_machine.specs.Views.{IsDeeper};

use crate::frames::{Focus, Nested, Site};
use crate::machine::Machine;
use crate::nodes::{child_at, in_place_count, next_child, node_at, number_at};
use asp_model::Sign;
use code_table::{Child, KeyedLabel, Kind, Node};
use std::alloc::AllocError;

impl Machine {
    /// The number that is the next term below a node has become a place.
    #[inline(always)]
    pub fn give(
        &mut self,
        number: usize,
        from: usize,
        done: usize,
        place: usize,
    ) -> Result<(), AllocError>
        ensures view { OnOk result
            (view_of self.new ≡ given_view number from done place (view_of self.old)) }
    {
        let done = done.checked_add(1).ok_or(AllocError)?;
        self.operands.push(place)?;
        self.look_at(Focus::Node { number, from, done });
        Ok(())
    }

    /// The place of a term below a node, where that is a variable.
    #[inline(always)]
    fn variable_at(&self, node: &Node, number: usize) -> Option<usize>
        ensures variable { (ps : List Piece) →
            let ns = drop self.now.base self.now.env.items in
            IfSome result (IsVariable ps ns node.now.children.items number) }
    {
        let Some(child) = child_at(node, number) else {
            return None;
        };
        let Child::Leaf(leaf) = child else {
            return None;
        };
        let Some(place) = self.place_of(leaf) else {
            return None;
        };
        Some(place)
    }

    /// A field of a variable.
    #[inline(always)]
    fn nested_get<'a>(&self, node: &Node, label: &'a KeyedLabel) -> Option<Nested<'a>>
        ensures redex { (k : List NodeShape) →
            let ns = drop self.now.base self.now.env.items in
            node.now.kind ≡ kind.Get label.now →
            IfSome result (IsRedexOf k ns node.now) }
    {
        let Some(place) = self.variable_at(node, 0) else {
            return None;
        };
        Some(Nested::Get(label, place))
    }

    /// A sign over a place, and a variable or a number.
    #[inline(always)]
    fn nested_sign<'a>(
        &self,
        nodes: &[Node],
        node: &Node,
        sign: Sign,
        first: usize,
    ) -> Option<Nested<'a>>
        requires sound { IsSound nodes.now }
        ensures redex { let ns = drop self.now.base self.now.env.items in
            node.now.kind ≡ kind.Operate sign →
            IsVariable (pieces nodes.now) ns node.now.children.items 0 first →
            IfSome result (IsRedexOf nodes.now ns node.now) }
    {
        let Some(child) = child_at(node, 1) else {
            return None;
        };
        match child {
            Child::Leaf(leaf) => {
                let Some(second) = self.place_of(leaf) else {
                    return None;
                };
                Some(Nested::Operate(sign, first, second))
            }
            Child::Node(inner) => {
                let Some(value) = number_at(nodes, *inner) else {
                    return None;
                };
                Some(Nested::OperateNumber(sign, first, value))
            }
        }
    }

    /// The redex of a node below the node that it looks at, if it needs no frame.
    #[inline(always)]
    fn nested<'a>(&self, nodes: &[Node], node: &'a Node) -> Option<Nested<'a>>
        requires sound { IsSound nodes.now }
        ensures redex { let ns = drop self.now.base self.now.env.items in
            IfSome result (IsRedexOf nodes.now ns node.now) }
    {
        match &node.kind {
            Kind::Number(value) => Some(Nested::Number(*value)),
            Kind::Get(label) => self.nested_get(node, label),
            Kind::Operate(sign) => match self.variable_at(node, 0) {
                Some(first) => self.nested_sign(nodes, node, *sign, first),
                None => None,
            },
            _ => None,
        }
    }

    /// Enters a node below a node, or stays before it where its redex needs no frame.
    #[inline(always)]
    fn meet<'a>(
        &mut self,
        nodes: &'a [Node],
        number: usize,
        from: usize,
        done: usize,
        inner: usize,
    ) -> Result<Site<'a>, AllocError>
        requires sound { IsSound nodes.now }
        ensures site { (t : Tree) (vs : List ServiceShape) → let k = nodes.now in
            let old = view_of self.old in
            Standing k old t vs → old.focus ≡ focus.Node number from done →
            done < in_place (piece_from k number from) →
            nth done (parts (piece_from k number from)) ≡ piece_at (pieces k) inner →
            IfOk result (IsSite k t vs (view_of self.new)) }
        ensures deeper { inner < number →
            IfOk result (λ s. is_found s ≡ false → IsDeeper number self.new.focus) }
    {
        let Some(node) = node_at(nodes, inner) else {
            return Err(AllocError);
        };
        match self.nested(nodes, node) {
            Some(redex) => Ok(Site::Nested {
                number,
                from,
                done,
                redex,
            }),
            None => {
                self.enter(number, from, done, inner)?;
                Ok(Site::Other)
            }
        }
    }

    /// Goes on to the next node below a node, over the variables before it, or to the node itself.
    #[inline(always)]
    fn approach<'a>(
        &mut self,
        nodes: &'a [Node],
        number: usize,
        from: usize,
        done: usize,
    ) -> Result<Site<'a>, AllocError>
        requires sound { IsSound nodes.now }
        ensures site { (t : Tree) (vs : List ServiceShape) →
            Standing nodes.now (view_of self.old) t vs →
            self.old.focus ≡ focus.Node number from done →
            IfOk result (IsSite nodes.now t vs (view_of self.new)) }
        ensures deeper { IfOk result (λ s. is_found s ≡ false → IsDeeper number self.new.focus) }
    {
        let Some(node) = node_at(nodes, number) else {
            return Err(AllocError);
        };
        let count = in_place_count(node, from);
        let mut done = done;
        while done < count {
            let Some(child) = next_child(node, from, done) else {
                return Err(AllocError);
            };
            match child {
                Child::Leaf(leaf) => self.pass(leaf)?,
                Child::Node(inner) => return self.meet(nodes, number, from, done, *inner),
            }
            done += 1;
            self.look_at(Focus::Node { number, from, done });
        }
        Ok(Site::Redex {
            node,
            number,
            from,
            done,
        })
    }

    /// Goes down to where the next contraction stands.
    #[inline(always)]
    fn reach_down<'a>(&mut self, nodes: &'a [Node]) -> Result<Site<'a>, AllocError>
        requires sound { IsSound nodes.now }
        ensures site { (t : Tree) (vs : List ServiceShape) →
            Standing nodes.now (view_of self.old) t vs →
            IfOk result (IsSite nodes.now t vs (view_of self.new)) }
    {
        loop {
            let Focus::Node { number, from, done } = self.focus else {
                return Ok(Site::Other);
            };
            let site = self.approach(nodes, number, from, done)?;
            if has_found(site) {
                return Ok(site);
            }
        }
    }

    /// Goes to where the next contraction stands, if a node comes to it.
    #[inline(always)]
    pub fn reach<'a>(&mut self, nodes: &'a [Node]) -> Result<Site<'a>, AllocError>
        requires sound { IsSound nodes.now }
        ensures site { (t : Tree) (vs : List ServiceShape) →
            Standing nodes.now (view_of self.old) t vs →
            IfOk result (IsSite nodes.now t vs (view_of self.new)) }
    {
        match self.place() {
            Some(place) => self.reach_from(nodes, place),
            None => self.reach_down(nodes),
        }
    }

    #[inline(always)]
    fn reach_from<'a>(&mut self, nodes: &'a [Node], place: usize) -> Result<Site<'a>, AllocError>
        requires sound { IsSound nodes.now }
        ensures site { (t : Tree) (vs : List ServiceShape) →
            Standing nodes.now (view_of self.old) t vs → self.old.focus ≡ focus.Place place →
            IfOk result (IsSite nodes.now t vs (view_of self.new)) }
    {
        if self.fill(place)? {
            self.reach_down(nodes)
        } else {
            Ok(Site::Other)
        }
    }
}

#[inline(always)]
fn has_found(site: Site) -> bool
    ensures found { result ≡ is_found site.entry }
{
    match site {
        Site::Other => false,
        _ => true,
    }
}
