//! Sets of names.

ghost use Rattle.std.specs.Prelude.{◌≡◌, OnOk, IfOk, not};
ghost use Rattle.asp_check.specs.NameFaults.{no_names, with_name};
ghost use Rattle.asp_check.specs.Sets.{names_in, without_name};

use std::alloc::{AllocError, Global};
use std::collections::BTreeSet;

pub fn empty_names<'a>(alloc: Global) -> BTreeSet<&'a str>
    ensures { names_in result ≡ no_names }
{
    BTreeSet::new(alloc)
}

/// Adds a name, and returns whether it is new.
pub fn add_name<'a>(names: &mut BTreeSet<&'a str>, name: &'a str) -> Result<bool, AllocError>
    ensures with { let grown = with_name name.entry.now (names_in names.old) in
        OnOk result (names_in names.new ≡ grown) }
    ensures is_new { IfOk result (λ r. r ≡ not (names_in names.old name.entry.now)) }
{
    Ok(names.insert(name)?)
}

pub fn has_name<'a>(names: &BTreeSet<&'a str>, name: &'a str) -> bool
    ensures { result ≡ names_in names.now name.now }
{
    names.contains(&name)
}

pub fn remove_name<'a>(names: &mut BTreeSet<&'a str>, name: &'a str)
    ensures { names_in names.new ≡ without_name name.entry.now (names_in names.old) }
{
    names.remove(name);
}
