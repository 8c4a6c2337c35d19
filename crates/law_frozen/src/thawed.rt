//! Runs that go on from what was frozen.

ghost use Rattle.law_frozen.specs.Thawed.{RunsAreLedBack, ThawedAreFirst, ThawedAreWhole};

/// Where a run may begin, it may go on from what is thawed.
pub fn thawed_are_first()
    ensures { ThawedAreFirst }
{}

/// And it is whole, if that was.
pub fn thawed_are_whole()
    ensures { ThawedAreWhole }
{}

/// The end of a run that went on differs from what the program reaches in what was served alone.
pub fn runs_are_led_back()
    ensures { RunsAreLedBack }
{}
