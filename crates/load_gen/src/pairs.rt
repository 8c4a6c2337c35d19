//! The program of `n` pairs: one activity keeps a sum, and for each pair the first one doubles a
//! number and the second one hands its future on to the sum.

ghost use Rattle.std.specs.Prelude.{◌≡◌, ◌≤◌, ◌++◌, string_bytes, IfOk};
ghost use Rattle.std.specs.Fmt.{decimal};
ghost use Rattle.load_gen.specs.Generated.{generated};

use std::alloc::{AllocError, Global};

// The activity that keeps the sum. It serves as many additions as there are pairs, and then the total.
const COUNTER: &str = "let c = active([sum = 0; run(s) = s.many(";

const COUNTER_REST: &str =
    "); serve(total), many(s, k) = if (k == 0) { 0 } else { serve(add); s.many(k - 1) }, add(s, v) = s.sum := s.sum + v; 0, total(s) = s.sum], run) in\n";

// The object that creates the pairs.
const MAKER: &str =
    "let m = [; pairs(s, k) = if (k == 0) { 0 } else { let b = active([; twice(t, v) = v * 2]) in let f = active([; go(t, v) = c.add(b.twice(v))]) in f.go(k); s.pairs(k - 1) }] in\n";

/// The program of this many pairs. It prints the sum of the doubled numbers from 1 on.
pub fn make(alloc: Global, n: u64) -> Result<String, AllocError>
    requires least { 1 ≤ n }
    requires most { n ≤ 2000 }
    ensures program { IfOk result (λ s. string_bytes s ≡ generated n) }
{
    let mut text = with_number(alloc, COUNTER, n, COUNTER_REST)?;
    text.push_str(MAKER)?;
    let call = with_number(alloc, "m.pairs(", n, ");\n")?;
    text.push_str(call.as_str())?;
    text.push_str("print(c.total())\n")?;
    Ok(text)
}

fn with_number(alloc: Global, before: &str, n: u64, after: &str) -> Result<String, AllocError>
    ensures { IfOk result (λ s. string_bytes s ≡ before.now ++ decimal n ++ after.now) }
{
    format!(in alloc; "{before}{n}{after}")
}
