//! Worked rows of the definition of a program that was read.

ghost use Rattle.asp_model.specs.Readable.{IsReadable};
ghost use Rattle.law_programs.specs.Worked.{one_of_each, IsUnreadable, place, hole, negative, too_large, get_without_object, sequence_of_one, label_with_digit, reserved_name, tab_in_text};

/// A program with each kind of node is readable.
pub fn readable_programs()
    ensures { IsReadable one_of_each }
{}

/// One program for each way not to be.
pub fn unreadable_programs()
    ensures places { IsUnreadable place }
    ensures holes { IsUnreadable hole }
    ensures numbers { IsUnreadable negative × IsUnreadable too_large }
    ensures arities { IsUnreadable get_without_object × IsUnreadable sequence_of_one }
    ensures names { IsUnreadable label_with_digit × IsUnreadable reserved_name }
    ensures texts { IsUnreadable tab_in_text }
{}
