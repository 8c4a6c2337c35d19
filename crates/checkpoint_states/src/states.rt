//! States: a machine, a store and the output.

ghost use Rattle.std.specs.Prelude.{IfOk, map};
ghost use Rattle.asp_model.specs.Shapes.{line_shape, tree_of};
ghost use Rattle.code_compiler.specs.Compiled.{IsTable};
ghost use Rattle.law_steps.specs.Linked.{Each};
ghost use Rattle.checkpoint_reading.specs.Cells.{cell_shape};
ghost use Rattle.checkpoint_parts.specs.Shapes.{running_shape, service_shape};
ghost use Rattle.checkpoint_makes.specs.Cells.{AreProper};
ghost use Rattle.checkpoint_makes.specs.Terms.{RunsAs, WaitsAs};
ghost use Rattle.checkpoint_states.specs.States.{IsMadeState};

use activity_step::State;
use asp_model::{Line, Term};
use checkpoint_makes::{make_cells, make_services, make_term};
use checkpoint_parts::ServiceText;
use checkpoint_reading::CellText;
use code_table::Node;
use frozen_code::restore;
use object_store::Store;
use std::alloc::{AllocError, Global};

/// Makes the state of an activity, from the terms that run and wait, the cells of its store and its
/// output. What is compiled comes behind the other nodes.
pub fn make_state(
    alloc: Global,
    nodes: &mut Vec<Node>,
    terms: Vec<Term>,
    services: Vec<ServiceText>,
    cells: Vec<CellText>,
    lines: Vec<Line>,
) -> Result<State, AllocError>
    requires table { IsTable nodes.old.items }
    requires runs { RunsAs (map tree_of terms.items) }
    requires wait { Each (λ s. WaitsAs (map tree_of s.terms.items)) services.items }
    requires proper { AreProper cells.items }
    ensures made { let t = running_shape (map tree_of terms.items) in
        let vs = map service_shape services.items in let cs = map cell_shape cells.items in
        let ls = map line_shape lines.items in
        IfOk result (λ x. IsMadeState nodes.old.items nodes.new.items x t vs cs ls) }
{
    let suspended = make_services(alloc, nodes, services)?;
    let term = make_term(alloc, nodes, terms)?;
    let columns = make_cells(alloc, nodes, cells)?;
    let machine = restore(alloc, &suspended, &term.contexts, &term.innermost)?;
    let store = Store::of(alloc, columns)?;
    Ok(State {
        machine,
        store,
        lines,
    })
}
