//! Suspended services.
#![tactic(auto, using(checkpoint_text::proofs::WritingLemmas::writing))]

ghost use Rattle.std.specs.Prelude.{OnOk};
ghost use Rattle.checkpoint_text.specs.Items.{list_items};
ghost use Rattle.checkpoint_text.specs.Writing.{Adds, tree_items};
ghost use Rattle.frozen_runs.specs.Pieces.{suspended_items};
ghost use Rattle.std.specs.List.{flat_map};

use asp_model::Term;
use checkpoint_text::{put_answer, put_number, put_term};
use code_reading::Suspended;
use std::alloc::AllocError;

/// Writes suspended services, oldest first.
pub fn put_services(text: &mut String, services: &[Suspended]) -> Result<(), AllocError>
    ensures adds { OnOk result
        (Adds text.old (list_items suspended_items services.now) text.new) }
{
    put_number(text, services.len() as u64)?;
    for service in services {
        put_suspended(text, service)?;
    }
    Ok(())
}

// Writes a suspended term, with a hole for its `serve`, and the future that it had to answer.
fn put_suspended(text: &mut String, service: &Suspended) -> Result<(), AllocError>
    ensures adds { OnOk result (Adds text.old (suspended_items service.now) text.new) }
{
    let count = service.contexts.len() as u64 + 1;
    put_number(text, count)?;
    put_number(text, 1)?;
    put_each(text, &service.contexts)?;
    put_answer(text, &service.future)
}

// Writes terms, whose number was written before.
fn put_each(text: &mut String, terms: &[Term]) -> Result<(), AllocError>
    ensures adds { OnOk result (Adds text.old (flat_map tree_items terms.now) text.new) }
{
    for term in terms {
        put_term(text, term)?;
    }
    Ok(())
}

/// Writes terms: how many, then each.
pub fn put_terms(text: &mut String, terms: &[Term]) -> Result<(), AllocError>
    ensures adds { OnOk result (Adds text.old (list_items tree_items terms.now) text.new) }
{
    put_number(text, terms.len() as u64)?;
    put_each(text, terms)
}
