//! What a value has to tell for a hub to share it.

ghost use Rattle.std.specs.Prelude.{ℕ, Option};
ghost use Rattle.asp_model.specs.History.{HistoryShape};

/// A value that keeps a history, and that knows what each seat has out of it.
pub trait Lends: Drop {
    // What the value went through.
    ghost history: { Self → HistoryShape };

    // The number and the burst of the lease that the seat with that number has, if it has one, and how
    // many grants are kept for it.
    ghost out: { Self → ℕ → Option (ℕ × ℕ × ℕ) };

    // What a value keeps of the one that the hub was made with, which stands first.
    ghost keeps: { Self → Self → Type 0 };
}
