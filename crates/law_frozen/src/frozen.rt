//! What is frozen, and what is thawed of it.

ghost use Rattle.law_frozen.specs.Frozen.{FrozenIsSame, SameFreezesSame};

/// What is thawed of a frozen configuration differs from it in what was served alone.
pub fn frozen_is_same()
    ensures { FrozenIsSame }
{}

/// Configurations that differ in what was served alone freeze to the same.
pub fn same_freezes_same()
    ensures { SameFreezesSame }
{}
