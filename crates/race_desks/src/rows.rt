//! Rows by the numbers of seats: the number and the burst of the lease that a seat has, and how many
//! grants may follow its own.

ghost use Rattle.std.specs.Prelude.{◌≡◌, ◌<◌, IfOk, None, Some, set, vec_len, ℕ};
ghost use Rattle.race_desks.specs.LeaseRows.{row};

use std::alloc::{AllocError, Global};

/// The number and the burst of the lease that a seat has, if it has one, and how many grants may
/// follow its own.
pub type Row = Option<(u32, u64, u32)>;

/// Rows for so many seats, which have nothing out.
pub fn empty_rows(alloc: Global, seats: u32) -> Result<Vec<Row>, AllocError>
    ensures seats { IfOk result (λ rows. vec_len rows ≡ seats) }
    ensures empty { IfOk result (λ rows. (n : ℕ) → row rows.items n ≡ None) }
{
    Vec::from_elem(alloc, None, seats as usize)
}

/// The row of this seat is emptied.
pub fn clear(rows: &mut Vec<Row>, seat: u32)
    requires seat { seat < vec_len rows.old }
    ensures rows { rows.new.items ≡ set rows.old.items seat None }
    ensures free { row rows.new.items seat ≡ None }
    ensures seats { vec_len rows.new ≡ vec_len rows.old }
{
    rows[seat as usize] = None;
}

/// The row of this seat has a lease.
pub fn fill(rows: &mut Vec<Row>, seat: u32, number: u32, burst: u64, rounds: u32)
    requires seat { seat < vec_len rows.old }
    ensures rows { rows.new.items ≡ set rows.old.items seat (Some (number, burst, rounds)) }
    ensures out { row rows.new.items seat ≡ Some (number, burst, rounds) }
    ensures seats { vec_len rows.new ≡ vec_len rows.old }
{
    rows[seat as usize] = Some((number, burst, rounds));
}
