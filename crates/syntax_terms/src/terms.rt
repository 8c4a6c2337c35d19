//! Operators get their right sides, and sequences end.

ghost use Rattle.std.specs.Prelude.{◌≡◌, ◌∷◌, [], ◌++◌, map, IfOk, OnOk, Some, None, true};
ghost use Rattle.asp_model.specs.Shapes.{marked_of, sign_shape};
ghost use Rattle.syntax_grammar.specs.States.{joined as joined_part, put_all as all_puts, sum_in as sum_of, test_in as test_of, term_in as term_of, value as value_part, fresh as fresh_open, first_start as first_of, operator, without_sum, without_test, without_puts, with_product, with_sum, with_test};
ghost use Rattle.syntax_terms.specs.Shapes.{part_shape, operator_shape, waiting_shape, access_shape, put_stack, kind_shape, open_shape};
ghost use Rattle.syntax_terms.specs.Answers.{Puts};

use crate::node::{access_of, operated, put};
use crate::open::{Access, Kind, Open, Operator, Part};
use crate::steps::sequence;
use crate::stop::{Stop, stopped};
use asp_model::{Sign, Term};
use std::alloc::{AllocError, Global};
use std::mem;

/// A sequence, or a field's term, of which nothing was read.
pub fn fresh(alloc: Global, kind: Kind) -> Open
    ensures { open_shape result ≡ fresh_open (kind_shape kind) }
{
    Open {
        kind,
        start: 0,
        before: Vec::new(alloc),
        puts: Vec::new(alloc),
        test: None,
        sum: None,
        product: None,
    }
}

// An operator that waits gets its right side, and waits no longer.
fn joined(alloc: Global, slot: &mut Option<Operator>, part: Part) -> Result<Part, AllocError>
    ensures part { let whole = joined_part (waiting_shape slot.old) (part_shape part) in
        IfOk result (λ p. part_shape p ≡ whole) }
    ensures none { slot.new ≡ None }
{
    match slot.take() {
        None => Ok(part),
        Some(operator) => operated(alloc, operator.sign, operator.left, part),
    }
}

// The sum that an operand ends.
fn summed(alloc: Global, inner: &mut Open, part: Part) -> Result<Part, AllocError>
    ensures part { let whole = sum_of (open_shape inner.old) (part_shape part) in
        IfOk result (λ p. part_shape p ≡ whole) }
    ensures rest { OnOk result (open_shape inner.new ≡ without_sum (open_shape inner.old)) }
{
    let part = joined(alloc, &mut inner.product, part)?;
    joined(alloc, &mut inner.sum, part)
}

// The term that an operand ends, without the `:=` before it.
fn tested(alloc: Global, inner: &mut Open, part: Part) -> Result<Part, AllocError>
    ensures part { let whole = test_of (open_shape inner.old) (part_shape part) in
        IfOk result (λ p. part_shape p ≡ whole) }
    ensures rest { OnOk result (open_shape inner.new ≡ without_test (open_shape inner.old)) }
{
    let part = summed(alloc, inner, part)?;
    joined(alloc, &mut inner.test, part)
}

// Each `:=` gets its right side.
fn put_all(alloc: Global, puts: &mut Vec<Access>, part: Part) -> Result<Part, AllocError>
    ensures part { let whole = all_puts (put_stack puts.old.items) (part_shape part) in
        IfOk result (λ p. part_shape p ≡ whole) }
    ensures none { OnOk result (puts.new.items ≡ []) }
{
    let mut whole = part;
    while let Some(access) = puts.pop() {
        whole = put(alloc, access, whole)?;
    }
    Ok(whole)
}

/// The term that an operand ends, with the operators that waited for it.
pub fn term_in(alloc: Global, inner: &mut Open, part: Part) -> Result<Part, AllocError>
    ensures part { let whole = term_of (open_shape inner.old) (part_shape part) in
        IfOk result (λ p. part_shape p ≡ whole) }
    ensures rest { OnOk result (open_shape inner.new ≡ without_puts (open_shape inner.old)) }
{
    let part = tested(alloc, inner, part)?;
    put_all(alloc, &mut inner.puts, part)
}

/// Where a sequence begins.
pub fn first_start(before: &[Term], start: usize, at: usize) -> usize
    ensures { result ≡ first_of (map marked_of before.now) start at }
{
    if before.is_empty() { at } else { start }
}

/// The sequence that an operand ends.
pub fn value_of(alloc: Global, inner: &mut Open, part: Part) -> Result<Part, AllocError>
    ensures value { let whole = value_part (open_shape inner.old) (part_shape part) in
        IfOk result (λ p. part_shape p ≡ whole) }
    ensures kind { OnOk result (kind_shape inner.new.kind ≡ kind_shape inner.old.kind) }
{
    let last = term_in(alloc, inner, part)?;
    let start = first_start(inner.before.as_slice(), inner.start, last.start);
    let before = mem::replace(&mut inner.before, Vec::new(alloc));
    let term = sequence(alloc, start, before, last.term)?;
    Ok(Part { start, term })
}

// An operator waits for its right side.
fn waits(slot: &mut Option<Operator>, sign: Sign, left: Part)
    ensures { waiting_shape slot.new ≡ Some (operator (sign_shape sign) (part_shape left)) }
{
    drop(slot.replace(Operator { sign, left }))
}

/// `*`, `/` or `%` behind an operand.
pub fn multiply(alloc: Global, sign: Sign, part: Part, inner: &mut Open) -> Result<(), AllocError>
    ensures { let next = with_product (sign_shape sign) (part_shape part) (open_shape inner.old) in
        OnOk result (open_shape inner.new ≡ next) }
{
    let left = joined(alloc, &mut inner.product, part)?;
    waits(&mut inner.product, sign, left);
    Ok(())
}

/// `+` or `-` behind an operand.
pub fn add(alloc: Global, sign: Sign, part: Part, inner: &mut Open) -> Result<(), AllocError>
    ensures { let next = with_sum (sign_shape sign) (part_shape part) (open_shape inner.old) in
        OnOk result (open_shape inner.new ≡ next) }
{
    let sum = summed(alloc, inner, part)?;
    waits(&mut inner.sum, sign, sum);
    Ok(())
}

/// `<` or `==` behind an operand, where no other waits.
pub fn compare(alloc: Global, sign: Sign, part: Part, inner: &mut Open) -> Result<(), AllocError>
    ensures { let next = with_test (sign_shape sign) (part_shape part) (open_shape inner.old) in
        OnOk result (open_shape inner.new ≡ next) }
{
    let left = summed(alloc, inner, part)?;
    waits(&mut inner.test, sign, left);
    Ok(())
}

fn with_access(puts: &mut Vec<Access>, access: Access) -> Result<(), AllocError>
    ensures { let grown = access_shape access ∷ put_stack puts.old.items in
        OnOk result (put_stack puts.new.items ≡ grown) }
{
    puts.push(access)?;
    Ok(())
}

/// `:=`, whose left side is a field access.
pub fn assign(alloc: Global, part: Part, inner: &mut Open) -> Result<(), Stop>
    ensures { Puts result (part_shape part) (open_shape inner.old) (open_shape inner.new) }
{
    let left = tested(alloc, inner, part)?;
    match access_of(left) {
        None => Err(Stop::NotAField),
        Some(access) => Ok(with_access(&mut inner.puts, access)?),
    }
}
