//! The futures that stand in a checkpoint, each once.

ghost use Rattle.std.specs.Prelude.{◌≡◌, ◌&&◌, IfOk, OnOk, map, not};
ghost use Rattle.std.specs.List.{flat_map};
ghost use Rattle.std.specs.Option.{option_map};
ghost use Rattle.asp_model.specs.Shapes.{future_shape};
ghost use Rattle.checkpoint_reading.specs.Cells.{request_shape, value_shape};
ghost use Rattle.checkpoint_parts.specs.Shapes.{activity_shape, checkpoint_shape};
ghost use Rattle.law_checkpoints.specs.Standing.{future_in, standing_at, standing_in};
ghost use Rattle.proper_terms.specs.Tests.{Tests};
ghost use Rattle.checkpoint_checks.specs.Maps.{has_in, no_futures, with_future, with_futures};
ghost use Rattle.checkpoint_checks.specs.Standing.{are_fresh, request_future, service_futures};
ghost use Rattle.checkpoint_checks.specs.Homes.{value_future};

use asp_model::FutureName;
use checkpoint_parts::{ActivityText, CheckpointText, ServiceText};
use checkpoint_reading::{ParcelText, RequestText};
use proper_terms::Refusal;
use std::alloc::Global;
use std::collections::BTreeSet;

fn meet<'a>(met: &mut BTreeSet<&'a FutureName>, future: &'a FutureName) -> Result<(), Refusal>
    ensures met { let grown = with_future (has_in met.old) (future_shape future.entry.now) in
        OnOk result (has_in met.new ≡ grown) }
    ensures fresh { Tests (not (has_in met.old (future_shape future.entry.now))) result }
{
    let fresh = met.insert(future)?;
    if fresh { Ok(()) } else { Err(Refusal::Unsound) }
}

fn meet_requests<'a>(
    met: &mut BTreeSet<&'a FutureName>,
    requests: &'a [RequestText],
) -> Result<(), Refusal>
    ensures met { let own = map request_future requests.entry.now in
        OnOk result (has_in met.new ≡ with_futures (has_in met.old) own) }
    ensures fresh { let own = map request_future requests.entry.now in
        Tests (are_fresh (has_in met.old) own) result }
{
    for request in requests {
        meet(met, &request.future)?;
    }
    Ok(())
}

fn meet_one<'a>(
    met: &mut BTreeSet<&'a FutureName>,
    future: &'a Option<FutureName>,
) -> Result<(), Refusal>
    ensures met { let own = future_in (option_map future_shape future.entry.now) in
        OnOk result (has_in met.new ≡ with_futures (has_in met.old) own) }
    ensures fresh { let own = future_in (option_map future_shape future.entry.now) in
        Tests (are_fresh (has_in met.old) own) result }
{
    match future {
        Some(future) => meet(met, future),
        None => Ok(()),
    }
}

#[tactic(auto, using(crate::proofs::FreshLemmas::fresh_laws, crate::proofs::LoopLemmas::key_laws))]
fn meet_services<'a>(
    met: &mut BTreeSet<&'a FutureName>,
    services: &'a [ServiceText],
) -> Result<(), Refusal>
    ensures met { let own = flat_map service_futures services.entry.now in
        OnOk result (has_in met.new ≡ with_futures (has_in met.old) own) }
    ensures fresh { let own = flat_map service_futures services.entry.now in
        Tests (are_fresh (has_in met.old) own) result }
{
    for service in services {
        meet_one(met, &service.future)?;
    }
    Ok(())
}

#[tactic(auto, using(crate::proofs::FreshLemmas::fresh_laws, crate::proofs::LoopLemmas::key_laws))]
fn meet_activity<'a>(
    met: &mut BTreeSet<&'a FutureName>,
    activity: &'a ActivityText,
) -> Result<(), Refusal>
    ensures met { let own = standing_at (activity_shape activity.entry.now) in
        OnOk result (has_in met.new ≡ with_futures (has_in met.old) own) }
    ensures fresh { let own = standing_at (activity_shape activity.entry.now) in
        Tests (are_fresh (has_in met.old) own) result }
{
    meet_requests(met, &activity.parts.queue)?;
    meet_one(met, &activity.parts.work.present)?;
    meet_services(met, &activity.parts.work.services)
}

#[tactic(auto, using(crate::proofs::FreshLemmas::fresh_laws, crate::proofs::LoopLemmas::key_laws))]
fn meet_activities<'a>(
    met: &mut BTreeSet<&'a FutureName>,
    activities: &'a [ActivityText],
) -> Result<(), Refusal>
    ensures met { let own = flat_map standing_at (map activity_shape activities.entry.now) in
        OnOk result (has_in met.new ≡ with_futures (has_in met.old) own) }
    ensures fresh { let own = flat_map standing_at (map activity_shape activities.entry.now) in
        Tests (are_fresh (has_in met.old) own) result }
{
    for activity in activities {
        meet_activity(met, activity)?;
    }
    Ok(())
}

fn meet_values<'a>(
    met: &mut BTreeSet<&'a FutureName>,
    values: &'a [(FutureName, ParcelText)],
) -> Result<(), Refusal>
    ensures met { let grown = with_futures (has_in met.old) (map value_future values.entry.now) in
        OnOk result (has_in met.new ≡ grown) }
    ensures fresh { Tests (are_fresh (has_in met.old) (map value_future values.entry.now)) result }
{
    for (future, _) in values {
        meet(met, future)?;
    }
    Ok(())
}

fn none<'a>(alloc: Global) -> BTreeSet<&'a FutureName>
    ensures empty { has_in result ≡ no_futures }
{
    BTreeSet::new(alloc)
}

/// All futures that stand in a checkpoint: those of pending requests, those that have to be
/// answered, and those that have values.
#[tactic(auto, using(crate::proofs::FreshLemmas::fresh_laws, crate::proofs::LoopLemmas::key_laws))]
pub fn collect_standing(
    alloc: Global,
    file: &CheckpointText,
) -> Result<BTreeSet<&FutureName>, Refusal>
    ensures met { let all = standing_in (checkpoint_shape file.entry.now) in
        IfOk result (λ s. has_in s ≡ with_futures no_futures all) }
    ensures fresh { let all = standing_in (checkpoint_shape file.entry.now) in
        Tests (are_fresh no_futures all) result }
{
    let mut met = none(alloc);
    meet_activities(&mut met, &file.activities)?;
    meet_values(&mut met, &file.values)?;
    Ok(met)
}
