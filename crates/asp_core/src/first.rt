//! Where the run of a core begins. Only proofs read it: it takes no memory, and its functions do
//! nothing when a program runs.

ghost use Rattle.std.specs.Prelude.{◌≡◌, None, Option};
ghost use Rattle.std.specs.Borrow.{ftrue};
ghost use Rattle.asp_model.specs.History.{FirstShape};
ghost use Rattle.asp_core.specs.First.{coded_begin};

use std::marker::Model;

/// Where the run of a core begins: with its program, or in a configuration in which it goes on.
#[derive(Drop)]
pub struct First {
    pub ghost shape: { Option FirstShape } by { coded_begin },
}

impl Model for First {
    ghost also_owns = { λ _. ftrue };
}

// It owns nothing.
unsafe impl Send for First {}

impl First {
    ghost use Rattle.std.specs.Prelude.{◌≡◌, None};

    /// With its program.
    pub fn program() -> First
        ensures { result.shape ≡ None }
    {
        First {}
    }
}
