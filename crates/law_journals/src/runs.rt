//! What holders say of a run.

ghost use Rattle.law_journals.specs.Runs.{
  EffectsAreFresh,
  FirstHoldersAre,
  HoldersAreOfRuns,
  HoldersStay,
  HomesAreOfBegun,
};

/// Where a run begins, each home is who received the request, and those that have a value are
/// filled.
pub fn first_holders_are()
    ensures { FirstHoldersAre }
{}

/// The home of a future is who received its request, and exactly those that have a value are
/// filled.
pub fn holders_are_of_runs()
    ensures { HoldersAreOfRuns }
{}

/// The holders of one configuration are those of each other with the same requests and values.
pub fn holders_stay()
    ensures { HoldersStay }
{}

/// Exactly the futures that were begun have a home.
pub fn homes_are_of_begun()
    ensures { HomesAreOfBegun }
{}

/// A new request's future has no home yet. One that is filled has a home, and is not filled before.
pub fn effects_are_fresh()
    ensures { EffectsAreFresh }
{}
