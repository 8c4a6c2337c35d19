//! The places of objects.

ghost use Rattle.std.specs.Prelude.{◌≡◌, ◌<◌, ◌++◌, IfOk, OnOk, length};
ghost use Rattle.code_laws.specs.Places.{captured_places, kept_places, leaf_place, slot};
ghost use Rattle.frozen_code.specs.Objects.{AreKept, AreWithin, restored_places};

use code_table::{Capture, Class, Leaf, MethodCode, Place};
use std::alloc::{AllocError, Global};

/// The place of a variable in an environment.
fn place_in(places: &[Place], leaf: &Leaf) -> Place
    requires within { slot leaf.now < length places.now }
    ensures place { result ≡ leaf_place places.now leaf.now }
{
    let slot = match leaf {
        Leaf::Own(slot, _) => *slot,
        Leaf::Kept(slot) => *slot,
    };
    places[slot]
}

fn push_captured(
    places: &[Place],
    captured: &[Capture],
    all: &mut Vec<Place>,
) -> Result<(), AllocError>
    requires within { AreWithin (length places.now) captured.now }
    ensures places { OnOk result
        (all.new.items ≡ all.old.items ++ captured_places places.now captured.now) }
{
    for capture in captured {
        all.push(place_in(places, &capture.leaf))?;
    }
    Ok(())
}

fn push_kept(
    places: &[Place],
    methods: &[MethodCode],
    all: &mut Vec<Place>,
) -> Result<(), AllocError>
    requires within { AreKept (length places.now) methods.now }
    ensures places { OnOk result
        (all.new.items ≡ all.old.items ++ kept_places places.now methods.now) }
{
    for method in methods {
        push_captured(places, &method.captured, all)?;
    }
    Ok(())
}

/// The places of an object of a class: those of its fields, and those that its methods capture in an
/// environment.
pub fn object_places(
    alloc: Global,
    class: &Class,
    fields: &[Place],
    places: &[Place],
) -> Result<Vec<Place>, AllocError>
    requires kept { AreKept (length places.now) class.now.methods.items }
    ensures places { IfOk result
        (λ ps. ps.items ≡ restored_places class.now fields.now places.now) }
{
    let mut all = Vec::with_capacity(alloc, fields.len())?;
    all.extend_from_slice(fields)?;
    push_kept(places, &class.methods, &mut all)?;
    Ok(all)
}
