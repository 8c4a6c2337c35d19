//! Chases round cycles.

ghost use Rattle.worked_rows.specs.Chases.{EachLeadsToTheOther, FirstLeadsToTheCycle};

/// From each future of a cycle, and from one that only leads to it, the chase gives one name.
pub fn cycles()
    ensures both { EachLeadsToTheOther }
    ensures leads { FirstLeadsToTheCycle }
{}
