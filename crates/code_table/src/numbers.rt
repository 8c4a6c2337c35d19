//! The numbers of many labels, in a map. A few labels are found as fast by a walk.

ghost use Rattle.std.specs.Prelude.{◌≡◌, IfOk, map};
ghost use Rattle.code_table.specs.Numbers.{AreNumbers, HaveNumbers, number_in};

use crate::code::MethodCode;
use asp_model::Label;
use std::alloc::{AllocError, Global};
use std::collections::BTreeMap;
use std::marker::Model;

/// So many labels are found by a walk.
const FEW: usize = 8;

/// Numbers of labels, seen as pairs in the order of the labels.
#[derive(Drop)]
pub(crate) struct Numbers {
    numbers: BTreeMap<Label, usize>,
}

impl Model for Numbers {
    ghost use Rattle.std.specs.Prelude.{List, ℕ};
    ghost use Rattle.asp_model.specs.declared.word.Label.{Label};

    ghost Value = { List (Label × ℕ) };

    ghost view = { λ n. n.numbers.entries };
}

impl Numbers {
    /// The number of a label, by a logarithm of comparisons.
    pub(crate) fn number(&self, label: &Label) -> Option<usize>
        ensures number { result ≡ number_in self.now label.now }
    {
        self.numbers.get(label).copied()
    }
}

/// The numbers of the labels of fields, unless there are few.
pub(crate) fn number_fields(alloc: Global, fields: &[Label]) -> Result<Option<Numbers>, AllocError>
    ensures numbers { IfOk result (HaveNumbers (map (λ l. l.text) fields.now)) }
{
    if fields.len() <= FEW {
        return Ok(None);
    }
    Ok(Some(all_fields(alloc, fields)?))
}

/// The numbers of the labels of methods, unless there are few.
pub(crate) fn number_methods(
    alloc: Global,
    methods: &[MethodCode],
) -> Result<Option<Numbers>, AllocError>
    ensures numbers { IfOk result (HaveNumbers (map (λ m. m.label.text) methods.now)) }
{
    if methods.len() <= FEW {
        return Ok(None);
    }
    Ok(Some(all_methods(alloc, methods)?))
}

// From the last field to the first, whose number replaces that of an equal label.
fn all_fields(alloc: Global, fields: &[Label]) -> Result<Numbers, AllocError>
    ensures numbers { IfOk result (AreNumbers (map (λ l. l.text) fields.now)) }
{
    let mut numbers = BTreeMap::new(alloc);
    for i in (0..fields.len()).rev() {
        numbers.insert(fields[i].copy(alloc)?, i)?;
    }
    Ok(Numbers { numbers })
}

// From the last method to the first, whose number replaces that of an equal label.
fn all_methods(alloc: Global, methods: &[MethodCode]) -> Result<Numbers, AllocError>
    ensures numbers { IfOk result (AreNumbers (map (λ m. m.label.text) methods.now)) }
{
    let mut numbers = BTreeMap::new(alloc);
    for i in (0..methods.len()).rev() {
        numbers.insert(methods[i].label.copy(alloc)?, i)?;
    }
    Ok(Numbers { numbers })
}
