//! Where a request went.

ghost use Rattle.std.specs.Prelude.{◌≡◌, IfOk};
ghost use Rattle.wait_circles.specs.Targets.{place_of};

use asp_model::{ActivityName, FutureName, Label};
use std::alloc::{AllocError, Global};

/// Where a request went.
#[derive(Drop)]
pub struct Target {
    pub to: ActivityName,
    pub label: Label,
    /// The byte of the text where it was sent.
    pub at: Option<usize>,
}

/// A request that was sent: its future, which is named by who asks, and where it went.
#[derive(Drop)]
pub struct Sent {
    pub future: FutureName,
    pub target: Target,
}

/// A request with this label and this future went to an activity.
pub fn sent_to(
    alloc: Global,
    to: &ActivityName,
    label: &Label,
    future: &FutureName,
    at: Option<usize>,
) -> Result<Sent, AllocError>
    ensures future { IfOk result (λ s. s.future ≡ future.now) }
    ensures target { IfOk result (λ s. place_of s.target ≡ (to.now, label.now.text)) }
{
    let target = Target {
        to: to.copy(alloc)?,
        label: label.copy(alloc)?,
        at,
    };
    Ok(Sent {
        future: future.copy(alloc)?,
        target,
    })
}
