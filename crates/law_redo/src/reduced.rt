//! The reductions of a commit, one after another.

ghost use Rattle.law_redo.specs.Reduced.{
  CommunicationsAreLast,
  LastsAreReduced,
  NeedersAsk,
  RestsAreReduced,
  RunsAreReduced,
  StepsAreReduced,
};

/// The reductions behind contractions are those of the activity to which they lead.
pub fn runs_are_reduced()
    ensures { RunsAreReduced }
{}

/// And those behind a step that is no communication.
pub fn steps_are_reduced()
    ensures { StepsAreReduced }
{}

/// The last step may be a communication.
pub fn lasts_are_reduced()
    ensures { LastsAreReduced }
{}

/// No other step may be one.
pub fn communications_are_last()
    ensures { CommunicationsAreLast }
{}

/// Whoever rests takes no step.
pub fn rests_are_reduced()
    ensures { RestsAreReduced }
{}

/// One who needs a value, and acts, asks others exactly if it sends or makes something.
pub fn needers_ask()
    ensures { NeedersAsk }
{}
