//! Walks down the frames of a machine, the innermost first.

ghost use Rattle.std.specs.Prelude.{◌≡◌, ◌∷◌, ◌++◌, [], IfNone, IfSome, drop, reverse, take};
ghost use Rattle.step_machine.specs.Stacks.{but_last, last};
ghost use Rattle.step_machine.specs.Views.{IsAlone, IsOpen};

use step_machine::{Form, Frame};

/// The frames that are left, and the environments and operands below the ones that were passed.
#[derive(Clone, Copy)]
pub struct Cursor<'a> {
    pub frames: &'a [Frame],
    pub env: &'a [usize],
    pub operands: &'a [usize],
}

/// The first of these places.
pub fn up_to(places: &[usize], count: usize) -> &[usize]
    ensures places { result.now ≡ take count places.now }
{
    if count < places.len() {
        &places[..count]
    } else {
        places
    }
}

/// All of these places but the first.
pub fn behind(places: &[usize], count: usize) -> &[usize]
    ensures places { result.now ≡ drop count places.now }
{
    if count < places.len() {
        &places[count..]
    } else {
        &[]
    }
}

/// The last of these places.
pub fn last_of(places: &[usize], count: usize) -> &[usize]
    ensures places { result.now ≡ last count places.now }
{
    behind(places, places.len().saturating_sub(count))
}

/// All of these places but the last.
pub fn all_but(places: &[usize], count: usize) -> &[usize]
    ensures places { result.now ≡ but_last count places.now }
{
    up_to(places, places.len().saturating_sub(count))
}

/// The innermost frame, and the others.
pub fn innermost(frames: &[Frame]) -> Option<(Frame, &[Frame])>
    ensures some { IfSome result (λ p. frames.now ≡ p.1.now ++ p.0 ∷ []) }
    ensures none { IfNone result (frames.now ≡ []) }
{
    if frames.is_empty() {
        return None;
    }
    let count = frames.len() - 1;
    Some((frames[count], &frames[..count]))
}

/// The innermost frame, where it waits for a term, and the others.
pub fn waiting(frames: &[Frame]) -> Option<(Frame, &[Frame])>
    ensures some { IfSome result
        (λ p. IsOpen p.0.form × (frames.now ≡ p.1.now ++ p.0 ∷ [])) }
    ensures none { IfNone result (IsAlone (reverse frames.now)) }
{
    match innermost(frames) {
        Some((frame, others)) => match frame.form {
            Form::Terms => Some((frame, others)),
            Form::Calls(_) => Some((frame, others)),
            Form::Service => None,
        },
        None => None,
    }
}

/// Past the innermost frame.
pub fn below<'a>(cursor: &Cursor<'a>, frame: Frame, others: &'a [Frame]) -> Cursor<'a>
    ensures frames { result.frames.now ≡ others.now }
    ensures env { result.env.now ≡ take frame.height cursor.now.env.now }
    ensures operands { result.operands.now ≡ but_last frame.done cursor.now.operands.now }
{
    Cursor {
        frames: others,
        env: up_to(cursor.env, frame.height),
        operands: all_but(cursor.operands, frame.done),
    }
}
