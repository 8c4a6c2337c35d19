//! What a redex comes to, as it is read through futures without a change.

ghost use Rattle.std.specs.Prelude.{◌≡◌, length};
ghost use Rattle.asp_model.specs.Chase.{chase};
ghost use Rattle.asp_model.specs.Contraction.{strict_members, strict_operands};
ghost use Rattle.asp_model.specs.Intent.{redex_ready};
ghost use Rattle.asp_model.specs.Split.{Redex as RedexShape};
ghost use Rattle.step_rows.specs.Redexes.{IsRedex};
ghost use Rattle.code_table.specs.Shapes.{store_of};
ghost use Rattle.future_table.specs.Values.{values_of};
ghost use Rattle.law_steps.specs.Closed.{AreBelow};
ghost use Rattle.step_reads.specs.Passed.{ArePassed};
ghost use Rattle.step_reads.specs.Prospects.{comes_to, prospect_shape};
ghost use Rattle.step_reads.specs.Strict.{strict_in};
ghost use Rattle.step_reads.specs.Values.{AreClosedValues};

use crate::prospect::Prospect;
use crate::reading::{Operands, operands_of};
use crate::rows::by_operands;
use crate::strict::strict_of;
use code_table::Code;
use future_table::FutureTable;
use object_store::Store;
use step_rows::Redex;

/// What a redex comes to, and how many members of a group that it waits for have values.
#[derive(Clone, Copy)]
pub struct Reading<'a> {
    pub prospect: Prospect<'a>,
    pub passed: usize,
}

/// What a redex comes to. It takes no memory, and unpacks nothing.
pub fn prospect_of<'a>(
    code: &'a Code,
    store: &'a Store,
    futures: &'a FutureTable,
    redex: Redex,
) -> Prospect<'a>
    requires values { AreClosedValues (values_of futures.now) }
    ensures prospect { (r : RedexShape) → IsRedex r redex.entry →
        AreBelow (length store.now.cells) (strict_operands r.head r.places) →
        let s = store_of code.now store.now.cells in
        AreBelow (length store.now.cells) (strict_members s r.head r.places) →
        prospect_shape result ≡ comes_to (redex_ready (chase (values_of futures.now)) s r) r }
{
    prospect_from(code, store, futures, redex, 0).prospect
}

/// What a redex comes to, where the first so many members of the group that it waits for are known to
/// have values: these are not looked at.
pub fn prospect_from<'a>(
    code: &'a Code,
    store: &'a Store,
    futures: &'a FutureTable,
    redex: Redex,
    from: usize,
) -> Reading<'a>
    requires values { AreClosedValues (values_of futures.now) }
    requires passed { let s = store_of code.now store.now.cells in
        ArePassed (chase (values_of futures.now)) s (strict_in redex) from }
    ensures prospect { (r : RedexShape) → IsRedex r redex.entry →
        AreBelow (length store.now.cells) (strict_operands r.head r.places) →
        let s = store_of code.now store.now.cells in
        AreBelow (length store.now.cells) (strict_members s r.head r.places) →
        let ready = redex_ready (chase (values_of futures.now)) s r in
        prospect_shape result.prospect ≡ comes_to ready r }
    ensures passed { let s = store_of code.now store.now.cells in
        ArePassed (chase (values_of futures.now)) s (strict_in redex.entry) result.passed }
{
    let sighting = operands_of(code, store, futures, strict_of(redex), from);
    match sighting.operands {
        Operands::Awaits(future) => Reading {
            prospect: Prospect::Awaits(future),
            passed: sighting.passed,
        },
        Operands::Read(first, second) => Reading {
            prospect: by_operands(redex, first, second),
            passed: sighting.passed,
        },
    }
}
