//! What a commit enters, and what it gives back.

ghost use Rattle.std.specs.Prelude.{◌≡◌, ◌<◌, ◌≤◌, ◌+◌, ◌-◌, ◌^◌, false, suc, true};

/// Whether a lease has used its grant, so that no communication is done at its end.
pub fn is_used(grant: u64, taken: u64) -> bool
    ensures used { result ≡ true → grant ≤ taken }
    ensures left { result ≡ false → taken < grant }
{
    grant <= taken
}

/// The reductions that a commit enters where the communication is done at which a lease stopped:
/// those that it took, and that one.
pub fn with_communication(taken: u64) -> u64
    ensures entered { suc taken < 2 ^ 64 → result ≡ suc taken }
{
    taken.saturating_add(1)
}

/// What is left of the budget, once the rest of a grant has gone back.
pub fn left_with(left: u64, grant: u64, reductions: u64) -> u64
    ensures left { left + (grant - reductions) < 2 ^ 64 → result ≡ left + (grant - reductions) }
{
    left.saturating_add(grant.saturating_sub(reductions))
}
