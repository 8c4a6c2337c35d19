//! Futures under numbers from 0, in the order in which they were met.

ghost use Rattle.std.specs.Prelude.{◌≡◌, ◌<◌, IfOk, OnErr, OnOk, Some, [], length, map};
ghost use Rattle.asp_model.specs.Shapes.{future_shape};
ghost use Rattle.future_table.specs.Numbers.{AreApart, IsEntered, named, number_of};

use asp_model::FutureName;
use indexmap::IndexSet;
use std::alloc::{AllocError, Global};
use std::marker::Model;

/// Futures under numbers, seen as the list of their names.
#[derive(Drop)]
pub struct Numbers {
    names: IndexSet<FutureName>,
}

impl Model for Numbers {
    ghost use Rattle.std.specs.Prelude.{List};
    ghost use Rattle.asp_model.specs.declared.name.FutureName.{FutureName};

    ghost Value = { List FutureName };

    ghost view = { λ n. n.names.keys };
}

impl Numbers {
    /// No future.
    pub fn new(alloc: Global) -> Numbers
        ensures { result ≡ [] }
    {
        Numbers {
            names: IndexSet::new(alloc),
        }
    }

    /// The future of a number.
    pub fn name(&self, number: usize) -> &FutureName
        requires within { number < length self.now }
        ensures name { future_shape result.now ≡ named (map future_shape self.now) number }
    {
        &self.names.as_slice()[number]
    }

    /// The number of a future, if it was met.
    pub fn of(&self, name: &FutureName) -> Option<usize>
        ensures number { result ≡ number_of (future_shape name.now) (map future_shape self.now) }
    {
        self.names.get_index_of(name)
    }

    /// The number of a future, and whether it has it from here: then it is the next one.
    pub fn enter(&mut self, name: FutureName) -> Result<(usize, bool), AllocError>
        ensures number { let number = number_of (future_shape name) (map future_shape self.new) in
            IfOk result (λ n. number ≡ Some n.0) }
        ensures entered { IfOk result (λ n. IsEntered name self.old self.new n.1) }
        ensures apart { OnOk result (AreApart self.new) }
        ensures err { OnErr result (self.new ≡ self.old) }
    {
        Ok(self.names.insert_full(name)?)
    }
}
