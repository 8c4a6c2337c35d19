//! The least fault that was found.

ghost use Rattle.std.specs.Prelude.{◌≡◌, OnOk};
ghost use Rattle.asp_check.specs.Least.{lesser, least_of};
ghost use Rattle.asp_check.specs.NameFaults.{with_name, when};
ghost use Rattle.asp_check.specs.Sets.{names_in};

use crate::fault::CheckFault;
use crate::names::add_name;
use std::alloc::AllocError;
use std::collections::BTreeSet;

/// Keeps the lesser of the fault that was found and another.
pub fn note(least: &mut Option<CheckFault>, fault: CheckFault)
    ensures { least.new ≡ lesser least.old fault }
{
    match least {
        Some(found) if !fault.is_before(*found) => {}
        _ => *least = Some(fault),
    }
}

/// Adds a name, and notes the fault if it stood earlier.
pub fn note_repeat<'a>(
    least: &mut Option<CheckFault>,
    earlier: &mut BTreeSet<&'a str>,
    name: &'a str,
    fault: CheckFault,
) -> Result<(), AllocError>
    ensures least { let faults = when (names_in earlier.old name.entry.now) fault in
        OnOk result (least.new ≡ least_of least.old faults) }
    ensures earlier { let grown = with_name name.entry.now (names_in earlier.old) in
        OnOk result (names_in earlier.new ≡ grown) }
{
    if !add_name(earlier, name)? {
        note(least, fault);
    }
    Ok(())
}
