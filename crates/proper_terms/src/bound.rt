//! The names that are bound at a place of a term.

ghost use Rattle.std.specs.Prelude.{◌≡◌, OnOk, IfOk, ◌∷◌, [], map};
ghost use Rattle.asp_check.specs.NameFaults.{with_name, with_names};
ghost use Rattle.asp_check.specs.Walk.{names_of};
ghost use Rattle.asp_check.specs.Sets.{names_in, without_name, without_names, texts, but_for};

use crate::names::{add_name, remove_name};
use asp_model::{Method, Word};
use std::alloc::{AllocError, Global};
use std::collections::BTreeSet;

/// Binds a name. A name that nothing round it bound is added to those that are unbound later.
pub fn bind<'a>(
    bound: &mut BTreeSet<&'a str>,
    added: &mut Vec<&'a str>,
    name: &'a str,
) -> Result<(), AllocError>
    ensures bound { let grown = with_name name.entry.now (names_in bound.old) in
        OnOk result (names_in bound.new ≡ grown) }
    ensures kept { let before = but_for added.old.items bound.old in
        OnOk result (but_for added.new.items bound.new ≡ before) }
{
    if add_name(bound, name)? {
        added.push(name)?;
    }
    Ok(())
}

fn bind_all<'a>(
    bound: &mut BTreeSet<&'a str>,
    added: &mut Vec<&'a str>,
    names: &'a [Word],
) -> Result<(), AllocError>
    ensures bound { let grown = with_names names.entry.now (names_in bound.old) in
        OnOk result (names_in bound.new ≡ grown) }
    ensures kept { let before = but_for added.old.items bound.old in
        OnOk result (but_for added.new.items bound.new ≡ before) }
{
    for name in names {
        bind(bound, added, name.as_str())?;
    }
    Ok(())
}

/// Binds the names of a method's head, and returns those that were not bound.
pub fn bind_head<'a>(
    alloc: Global,
    bound: &mut BTreeSet<&'a str>,
    method: &'a Method,
) -> Result<Vec<&'a str>, AllocError>
    ensures bound { let grown = with_names (names_of method.entry.now) (names_in bound.old) in
        OnOk result (names_in bound.new ≡ grown) }
    ensures kept { IfOk result (λ added. but_for added.items bound.new ≡ names_in bound.old) }
{
    let mut added = Vec::new(alloc);
    bind(bound, &mut added, method.slf.as_str())?;
    bind_all(bound, &mut added, &method.parameters)?;
    Ok(added)
}

pub fn unbind<'a>(bound: &mut BTreeSet<&'a str>, added: &[&'a str])
    ensures { names_in bound.new ≡ without_names (texts added.entry.now) (names_in bound.old) }
{
    for name in added {
        remove_name(bound, name);
    }
}
