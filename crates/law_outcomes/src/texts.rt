//! What stands in the terms of a program stands in what it reaches.

ghost use Rattle.law_outcomes.specs.Heads.{ReachedHave};
ghost use Rattle.law_outcomes.specs.Texts.{LabelsArePrintable, LinesArePrintable};

/// What passes a test at each node of a program, and of what reductions write, passes it everywhere.
pub fn reached_have()
    ensures { ReachedHave }
{}

/// What a program with printable texts reaches has written printable lines alone.
pub fn lines_are_printable()
    ensures { LinesArePrintable }
{}

/// The objects that it reaches have printable labels.
pub fn labels_are_printable()
    ensures { LabelsArePrintable }
{}
