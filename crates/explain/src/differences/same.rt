//! Whether receptions, logs and counts are the same.

ghost use Rattle.std.specs.Prelude.{◌≡◌, IsTrue, map};
ghost use Rattle.asp_model.specs.Shapes.{counts_shape, lists_shape, reception_shape};
ghost use Rattle.asp_model.specs.Step.{same_reception};
ghost use Rattle.explain.specs.OrderKept.{log_entry};

use asp_model::{ActivityName, Counts, Lists, Reception};

/// Whether two entries of logs note the same.
pub fn is_same(a: &Reception, b: &Reception) -> bool
    ensures { result ≡ same_reception (reception_shape a.now) (reception_shape b.now) }
{
    match (a, b) {
        (Reception::From(n), Reception::From(m)) => n == m,
        (Reception::Poll, Reception::Poll) => true,
        (Reception::From(_), Reception::Poll) => false,
        (Reception::Poll, Reception::From(_)) => false,
    }
}

fn is_same_log(log: &[Reception], other: &[Reception]) -> bool
    ensures { IsTrue result → map reception_shape log.now ≡ map reception_shape other.now }
{
    if log.len() != other.len() {
        return false;
    }
    for i in 0..log.len() {
        if !is_same(&log[i], &other[i]) {
            return false;
        }
    }
    true
}

fn are_same_logs(
    lists: &[(ActivityName, Vec<Reception>)],
    others: &[(ActivityName, Vec<Reception>)],
) -> bool
    ensures { IsTrue result → map log_entry lists.now ≡ map log_entry others.now }
{
    if lists.len() != others.len() {
        return false;
    }
    for i in 0..lists.len() {
        let entry = &lists[i];
        let other = &others[i];
        if entry.0 != other.0 || !is_same_log(&entry.1, &other.1) {
            return false;
        }
    }
    true
}

fn are_same_numbers(counts: &[(ActivityName, u64)], others: &[(ActivityName, u64)]) -> bool
    ensures { IsTrue result → counts.now ≡ others.now }
{
    if counts.len() != others.len() {
        return false;
    }
    for i in 0..counts.len() {
        let entry = &counts[i];
        let other = &others[i];
        if entry.0 != other.0 || entry.1 != other.1 {
            return false;
        }
    }
    true
}

/// Whether the logs are the same.
pub fn are_same_lists(lists: &Lists, others: &Lists) -> bool
    ensures { IsTrue result → lists_shape lists.now ≡ lists_shape others.now }
{
    are_same_logs(&lists.entries, &others.entries)
}

/// Whether the counts are the same.
pub fn are_same_counts(counts: &Counts, others: &Counts) -> bool
    ensures { IsTrue result → counts_shape counts.now ≡ counts_shape others.now }
{
    are_same_numbers(&counts.entries, &others.entries)
}
