//! Labels that the code shares with those who ask for them.

ghost use Rattle.std.specs.Prelude.{◌≡◌, IfOk};

use asp_model::Label;
use std::alloc::{AllocError, Global};
use std::marker::Model;
use std::sync::Arc;

/// Where the label is.
#[derive(Drop)]
enum Held {
    /// Nobody else has it.
    Alone(Label),
    Shared(Arc<Label>),
}

/// A label. One of the code is shared by all who ask for it: no request copies its text.
#[derive(Drop)]
pub struct SharedLabel {
    held: Held,
}

impl Model for SharedLabel {
    ghost use Rattle.asp_model.specs.declared.word.Label.{Label};

    ghost Value = { Label };

    ghost use Rattle.code_table.specs.Labels.{held_label};

    ghost view = { λ l. held_label l.held };
}

impl SharedLabel {
    /// A label that nobody else has. It needs no memory of its own.
    pub fn alone(label: Label) -> SharedLabel
        ensures label { result ≡ label }
    {
        SharedLabel {
            held: Held::Alone(label),
        }
    }

    /// A label that others can have too. `AllocError` is the only error.
    pub fn shared(alloc: Global, label: Label) -> Result<SharedLabel, AllocError>
        ensures label { IfOk result (λ l. l ≡ label) }
    {
        Ok(SharedLabel {
            held: Held::Shared(Arc::new(alloc, label)?),
        })
    }

    /// The same label: only the text of one that nobody else has is copied. `AllocError` is the only
    /// error.
    pub fn share(&self, alloc: Global) -> Result<SharedLabel, AllocError>
        ensures label { IfOk result (λ l. l.text ≡ self.now.text) }
    {
        match &self.held {
            Held::Alone(label) => Ok(SharedLabel::alone(label.copy(alloc)?)),
            Held::Shared(label) => Ok(SharedLabel {
                held: Held::Shared(Arc::try_clone(label)?),
            }),
        }
    }

    /// The label, as others read it.
    pub fn as_label(&self) -> &Label
        ensures label { result.now ≡ self.now }
    {
        match &self.held {
            Held::Alone(label) => label,
            Held::Shared(label) => label,
        }
    }
}
