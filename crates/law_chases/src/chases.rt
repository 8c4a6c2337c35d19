//! What chases find, that they look far enough, how cycles are named, and what one more filled
//! future changes.

ghost use Rattle.law_chases.specs.Chases.{ChasesEnd, ChasesFind, CyclesAreNamed, CyclesAreTold};
ghost use Rattle.law_chases.specs.Fills.{ChasesStayElsewhere, ChasesStayTogether, FilledIsOfRoot};

/// A chase answers a filled future with its own value, whose root is no future.
pub fn chases_find()
    ensures { ChasesFind }
{}

/// Where a walk ends, in however many steps, the chase answers that end.
pub fn chases_end()
    ensures { ChasesEnd }
{}

/// A chase answers a cycle exactly where no walk ends, and the name told is filled, comes into that
/// cycle, and is the least such.
pub fn cycles_are_named()
    ensures { CyclesAreNamed }
{}

/// Where no walk ends, a chase answers a cycle.
pub fn cycles_are_told()
    ensures { CyclesAreTold }
{}

/// Futures of one chase have one when one more is filled.
pub fn chases_stay_together()
    ensures { ChasesStayTogether }
{}

/// A chase stays where it led neither to the filled future, nor where the value's root led.
pub fn chases_stay_elsewhere()
    ensures { ChasesStayElsewhere }
{}

/// The filled future's chase is new, or that of the value's root.
pub fn filled_is_of_root()
    ensures { FilledIsOfRoot }
{}
