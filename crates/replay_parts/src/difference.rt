//! Where an outcome differs first from logs and counts.

ghost use Rattle.std.specs.Prelude.{◌≡◌, map};
ghost use Rattle.std.specs.Option.{option_map};
ghost use Rattle.asp_model.specs.Shapes.{activity_shape};
ghost use Rattle.law_schedules.specs.Divergence.{
  first_difference as difference_of,
  lesser_name,
  row_of,
  rows_given,
  same_row,
};
ghost use Rattle.replay_parts.specs.Rows.{given_row, list_shape};

use crate::receptions::same_log;
use asp_model::{ActivityName, ActivityReport, Reception};
use std::cmp::Ordering;

/// The lesser of two names, the first where they are equal.
fn lesser<'a>(name: &'a ActivityName, other: &'a ActivityName) -> &'a ActivityName
    ensures { result.now ≡ lesser_name name.now other.now }
{
    match other.cmp(name) {
        Ordering::Less => other,
        Ordering::Equal | Ordering::Greater => name,
    }
}

fn is_same(report: &ActivityReport, list: &(ActivityName, Vec<Reception>), count: u64) -> bool
    ensures { result ≡ same_row (row_of (activity_shape report.now)) (given_row list.now count) }
{
    report.name == list.0 && report.count == count && same_log(&report.senders, &list.1)
}

/// The least name at which the reports of activities differ from their logs and counts.
pub fn first_difference<'a>(
    reports: &'a [ActivityReport],
    lists: &'a [(ActivityName, Vec<Reception>)],
    counts: &[(ActivityName, u64)],
) -> Option<&'a ActivityName>
    ensures { let shown = map (λ a. row_of (activity_shape a)) reports.now in
        let given = rows_given (map list_shape lists.now) counts.now in
        option_map (λ n. n.now) result ≡ difference_of shown given }
{
    for place in 0..reports.len() {
        let report = &reports[place];
        let Some(list) = lists.get(place) else {
            return Some(&report.name);
        };
        let Some(count) = counts.get(place) else {
            return Some(&report.name);
        };
        if !is_same(report, list, count.1) {
            return Some(lesser(&report.name, &list.0));
        }
    }
    let list = lists.get(reports.len())?;
    counts.get(reports.len())?;
    Some(&list.0)
}
