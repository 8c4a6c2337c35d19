//! Programs that several tests run, or drive.

/// One request, whose value is printed.
pub const COUNTER: &str = "let a = active([; inc(s, x) = x + 1]) in print(a.inc(41))";

/// A future passes three activities unread.
pub const PASSING: &str =
    "let q = active([; slow(s, v) = v * 10]) in let z = active([; take(s, v) = \
     print(v + 1)]) in let y = active([; pass(s, v) = z.take(v)]) in let x = active([; hand(s, v) \
     = y.pass(v)]) in x.hand(q.slow(4))";

/// One value is received by two requests, and one copy changes.
pub const COPIES: &str =
    "let a = active([; make(s) = [v = 1]]) in let k = active([got = 0; keep(s, o) = \
     s.got := o; 0, set(s, o) = o.v := 2; print(s.got.v); print(o.v)]) in let f = a.make() in \
     k.keep(f); k.set(f)";

/// Three faults.
pub const FAULTS: &str =
    "let a = active([; num(s) = s.x]) in let b = active([; div(s, v) = 7 / v]) in \
     a.num(); b.div(0); a.y";

/// It never ends.
pub const ENDLESS: &str = "repeat(0)";

/// Eight that never end.
pub const LOOPS: &str =
    "let w = [; go(s) = repeat(0)] in let m = [; many(s, k) = if (k == 0) { 0 } \
     else { active(w).go(); s.many(k - 1) }] in m.many(7); repeat(0)";

/// One reduction.
pub const ONE: &str = "1";

/// A future is held by one that never ends.
pub const HELD: &str = "let a = active([; one(s) = 1]) in let f = a.one() in repeat(0)";

/// A future is held by one that prints, and then needs its value.
pub const LATER: &str = "let a = active([; one(s) = 1]) in let f = a.one() in print(2); print(f)";

/// A future whose value is that future.
pub const CIRCLE: &str =
    "let b = active([x = 0; m(s) = serve(n); s.x, n(s, v) = s.x := v]) in let f = \
     b.m() in b.n(f); print(f)";

/// Two futures, of which each is the other's value.
pub const CIRCLE_OF_TWO: &str =
    "let w = [x = 0; m(s) = serve(n); s.x, n(s, v) = s.x := v] in let b = active(w) in let c = \
     active(w) in let f = b.m() in let g = c.m() in b.n(g); c.n(f); print(g)";

/// Its 64th reduction is a poll.
pub const ASKED_64TH: &str = "print(1); 0; 0; 0; 0; 0; 0; 0; 0; 0; 0; 0; 0; 0; 0; 0; \
     0; 0; 0; 0; 0; 0; 0; 0; 0; 0; 0; 0; 0; 0; 0; pending(); 2";
