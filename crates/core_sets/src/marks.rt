//! Places that are marked, each below the room, and the first marked one from a place on. A node of
//! a tree says whether a place below it is marked: the children of node n are 2 n and 2 n + 1, the
//! root is 1, and the leaves are the places, moved up by the room.

ghost use Rattle.std.specs.Prelude.{
  ◌≡◌,
  ◌+◌,
  ◌-◌,
  ◌*◌,
  ◌^◌,
  ◌<◌,
  ◌≤◌,
  ◌||◌,
  ◌&&◌,
  ◌==◌,
  ◌%◌,
  ℕ,
  IfOk,
  OnOk,
  Some,
  false,
  length,
  true,
};
ghost use Rattle.core_sets.specs.Firsts.{IsFirstFrom};
ghost use Rattle.core_sets.specs.Marks.{
  AgreesAt,
  IsTree,
  MarkedSo,
  SameMarks,
  is_marked,
  node_at,
  room,
};

use std::alloc::{AllocError, Global};

#[derive(Drop)]
pub struct Marks {
    alloc: Global,
    /// The room is 2 to this power, once there is room.
    height: u32,
    nodes: Vec<bool>,
}

impl Marks {
    pub fn new(alloc: Global) -> Marks
        ensures tree { IsTree result }
        ensures none { (p : ℕ) → is_marked result p ≡ false }
    {
        Marks {
            alloc,
            height: 0,
            nodes: Vec::new(alloc),
        }
    }

    /// Makes room for one place more, where there is none. The room doubles, so that a place costs a
    /// logarithm.
    pub fn make_room(&mut self, place: usize) -> Result<(), AllocError>
        requires tree { IsTree self.old }
        requires next { place ≤ room self.old }
        requires low { place < 2 ^ 32 }
        ensures tree { IsTree self.new }
        ensures same { SameMarks self.old self.new }
        ensures room { OnOk result (place < room self.new) }
        ensures kept { room self.old ≤ room self.new }
    {
        if place < self.nodes.len() / 2 {
            return Ok(());
        }
        let mut larger = self.larger()?;
        self.copy_to(&mut larger);
        *self = larger;
        Ok(())
    }

    /// Makes room up to a place, which doubles the room so often.
    pub fn reach(&mut self, place: usize) -> Result<(), AllocError>
        requires tree { IsTree self.old }
        requires low { place < 2 ^ 32 }
        ensures tree { IsTree self.new }
        ensures same { SameMarks self.old self.new }
        ensures room { OnOk result (place < room self.new) }
    {
        let mut room = self.nodes.len() / 2;
        while room <= place {
            self.make_room(room)?;
            room = self.nodes.len() / 2;
        }
        Ok(())
    }

    // No place is marked, and the room is twice as large.
    fn larger(&self) -> Result<Marks, AllocError>
        requires tree { IsTree self.now }
        requires small { room self.now < 2 ^ 32 }
        ensures tree { IfOk result IsTree }
        ensures room { IfOk result (λ m. room self.now < room m) }
        ensures none { IfOk result (λ m. (p : ℕ) → is_marked m p ≡ false) }
    {
        let room = self.nodes.len() / 2;
        if room == 0 {
            return Marks::empty(self.alloc, 0);
        }
        Marks::empty(self.alloc, self.height + 1)
    }

    // No place is marked, and the room is 2 to the power of the height.
    fn empty(alloc: Global, height: u32) -> Result<Marks, AllocError>
        requires low { height ≤ 32 }
        ensures tree { IfOk result IsTree }
        ensures room { IfOk result (λ m. room m ≡ 2 ^ height) }
        ensures none { IfOk result (λ m. (p : ℕ) → is_marked m p ≡ false) }
    {
        let count = 2usize << height;
        Ok(Marks {
            alloc,
            height,
            nodes: vec![in alloc; false; count]?,
        })
    }

    fn copy_to(&self, larger: &mut Marks)
        requires tree { IsTree self.now }
        requires larger { IsTree larger.old }
        requires room { room self.now < room larger.old }
        requires none { (p : ℕ) → is_marked larger.old p ≡ false }
        ensures tree { IsTree larger.new }
        ensures room { room larger.new ≡ room larger.old }
        ensures same { SameMarks self.now larger.new }
    {
        let room = self.nodes.len() / 2;
        for place in 0..room {
            if self.nodes[room + place] {
                larger.set(place, true);
            }
        }
    }

    /// Whether a place is marked, which none beyond the room is.
    pub fn is_set(&self, place: usize) -> bool
        requires tree { IsTree self.now }
        ensures marked { result ≡ is_marked self.now place }
    {
        let room = self.nodes.len() / 2;
        place < room && self.nodes[room + place]
    }

    /// Marks a place, or takes its mark away. It goes up no further than to a node that already says
    /// what it should.
    pub fn set(&mut self, place: usize, mark: bool)
        requires tree { IsTree self.old }
        requires within { place < room self.old }
        ensures tree { IsTree self.new }
        ensures room { room self.new ≡ room self.old }
        ensures marked { MarkedSo place mark self.old self.new }
    {
        let mut node = self.nodes.len() / 2 + place;
        if self.nodes[node] == mark {
            return;
        }
        self.nodes[node] = mark;
        while node > 1 {
            node /= 2;
            let below = self.is_below(node);
            if self.nodes[node] == below {
                return;
            }
            self.nodes[node] = below;
        }
    }

    // Whether a child of a node is marked.
    fn is_below(&self, node: usize) -> bool
        requires within { 2 * node + 1 < length self.now.nodes.items }
        ensures { let nodes = self.now.nodes.items in
            result ≡ (node_at nodes (2 * node) || node_at nodes (2 * node + 1)) }
    {
        self.nodes[2 * node] || self.nodes[2 * node + 1]
    }

    /// The first marked place.
    pub fn first(&self) -> Option<usize>
        requires tree { IsTree self.now }
        ensures first { IsFirstFrom (is_marked self.now) 0 result }
    {
        let room = self.nodes.len() / 2;
        if room == 0 {
            return None;
        }
        // The root says whether any place is marked.
        if !self.nodes[1] {
            return None;
        }
        Some(self.first_below(1, self.height) - room)
    }

    /// The first marked place from a place on.
    pub fn next(&self, start: usize) -> Option<usize>
        requires tree { IsTree self.now }
        ensures first { IsFirstFrom (is_marked self.now) start result }
    {
        let room = self.nodes.len() / 2;
        if start >= room {
            return None;
        }
        // The root says whether any place is marked.
        if !self.nodes[1] {
            return None;
        }
        if self.nodes[room + start] {
            return Some(start);
        }
        match self.next_after(room + start, 0) {
            Some(leaf) => Some(leaf - room),
            None => None,
        }
    }

    // The first marked leaf behind those below a node.
    fn next_after(&self, node: usize, height: u32) -> Option<usize>
        requires tree { IsTree self.now }
        requires low { height ≤ self.now.height }
        requires from { 2 ^ (self.now.height - height) ≤ node }
        requires to { node < 2 * 2 ^ (self.now.height - height) }
        requires whole { 0 < room self.now }
        ensures first { let nodes = self.now.nodes.items in
            IsFirstFrom (node_at nodes) ((node + 1) * 2 ^ height) result }
    {
        if node == 1 {
            return None;
        }
        if self.has_marked_right(node) {
            return Some(self.first_below(node + 1, height));
        }
        self.next_after(node / 2, height + 1)
    }

    // Whether a node is the left child of its parent, and the right one is marked.
    fn has_marked_right(&self, node: usize) -> bool
        requires low { 1 ≤ node }
        requires within { node < 2 * room self.now }
        requires tree { IsTree self.now }
        ensures { let nodes = self.now.nodes.items in
            result ≡ (node % 2 == 0 && node_at nodes (node + 1)) }
    {
        node % 2 == 0 && self.nodes[node + 1]
    }

    // The first marked leaf below a node.
    fn first_below(&self, node: usize, height: u32) -> usize
        requires tree { IsTree self.now }
        requires node { 1 ≤ node }
        requires within { (node + 1) * 2 ^ height ≤ 2 * room self.now }
        requires marked { node_at self.now.nodes.items node ≡ true }
        ensures first { let nodes = self.now.nodes.items in
            IsFirstFrom (node_at nodes) (node * 2 ^ height) (Some result) }
    {
        if height == 0 {
            node
        } else if self.nodes[2 * node] {
            self.first_below(2 * node, height - 1)
        } else {
            self.first_below(2 * node + 1, height - 1)
        }
    }
}
