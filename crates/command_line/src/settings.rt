//! How a program is run.

ghost use Rattle.std.specs.Prelude.{◌≡◌, ◌≤◌, IfOk, IfErr, Some, None};
ghost use Rattle.asp_model.specs.declared.limits.TheConstants.{
  MOST_REDUCTIONS as MOST_BUDGET,
  MOST_WORKERS as MOST_RACING,
};
ghost use Rattle.update_policy.specs.Plans.{plan_shape};
ghost use Rattle.command_line.specs.Settings.{
  IsSettings,
  budget_of,
  plan_of,
  settings_of,
  strategy_of,
  workers_of,
};
ghost use Rattle.command_line.specs.Shapes.{given_shape, settings_shape, text_behind};
ghost use Rattle.command_line.specs.declared.error.WordsError.TheVariants as errors;

use crate::command::Given;
use crate::error::WordsError;
use crate::number::number_in;
use crate::update::{strategy_in, update_in};
use asp_model::{MOST_REDUCTIONS, MOST_WORKERS};
use std::alloc::Global;
use update_policy::{Plan, Strategy};

const DEFAULT_WORKERS: u32 = 4;

const DEFAULT_BUDGET: u64 = 1_000_000;

/// How a program is run.
#[derive(Drop)]
pub struct Settings {
    /// How many workers race.
    pub workers: u32,
    /// The most reductions that the run may take.
    pub budget: u64,
    /// Which strategy each future has.
    pub plan: Plan,
}

/// The settings of these texts.
pub fn settings_in(alloc: Global, texts: &Given<'_>) -> Result<Settings, WordsError>
    ensures ok { IfOk result (λ s. settings_of (given_shape texts.now) ≡ Some (settings_shape s)) }
    ensures usage { IfErr result
        (λ e. e ≡ errors.Usage → settings_of (given_shape texts.now) ≡ None) }
    ensures within { IfOk result (λ s. IsSettings (settings_shape s)) }
{
    let workers = workers_in(texts.workers)?;
    let budget = budget_in(texts.budget)?;
    let plan = plan_in(alloc, texts.strategy, texts.update)?;
    Ok(Settings {
        workers,
        budget,
        plan,
    })
}

fn workers_in(text: Option<&str>) -> Result<u32, WordsError>
    ensures ok { IfOk result (λ n. workers_of (text_behind text.entry) ≡ Some n) }
    ensures usage { IfErr result (λ _. workers_of (text_behind text.entry) ≡ None) }
    ensures within { IfOk result (λ n. (1 ≤ n) × (n ≤ MOST_RACING)) }
{
    let Some(text) = text else {
        return Ok(DEFAULT_WORKERS);
    };
    let Some(workers) = number_in(text, 1, MOST_WORKERS as u64) else {
        return Err(WordsError::Usage);
    };
    Ok(workers as u32)
}

/// The budget of this text.
pub fn budget_in(text: Option<&str>) -> Result<u64, WordsError>
    ensures ok { IfOk result (λ n. budget_of (text_behind text.entry) ≡ Some n) }
    ensures usage { IfErr result (λ _. budget_of (text_behind text.entry) ≡ None) }
    ensures within { IfOk result (λ n. (1 ≤ n) × (n ≤ MOST_BUDGET)) }
{
    match text {
        Some(text) => number_in(text, 1, MOST_REDUCTIONS).ok_or(WordsError::Usage),
        None => Ok(DEFAULT_BUDGET),
    }
}

fn plan_in(alloc: Global, strategy: Option<&str>, update: Option<&str>) -> Result<Plan, WordsError>
    ensures ok { let by = text_behind update.entry in IfOk result
        (λ p. plan_of (text_behind strategy.entry) by ≡ Some (plan_shape p)) }
    ensures usage { let by = text_behind update.entry in IfErr result
        (λ e. e ≡ errors.Usage → plan_of (text_behind strategy.entry) by ≡ None) }
{
    let strategy = usual_strategy(strategy)?;
    let by_label = update_in(alloc, update)?;
    Ok(Plan { strategy, by_label })
}

fn usual_strategy(text: Option<&str>) -> Result<Strategy, WordsError>
    ensures ok { IfOk result (λ s. strategy_of (text_behind text.entry) ≡ Some s) }
    ensures usage { IfErr result (λ _. strategy_of (text_behind text.entry) ≡ None) }
{
    match text {
        Some(text) => strategy_in(text).ok_or(WordsError::Usage),
        None => Ok(Strategy::Lazy),
    }
}
