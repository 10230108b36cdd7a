//! What the turn asks of the value that it locks.

ghost use Rattle.std.specs.Prelude.{ℕ, List};

/// A value that tells its history, to which each holder of the turn adds at the end.
pub trait Logged {
    /// An element of the history.
    type Entry;

    /// What stays the same from the first value to the last.
    type Birth;

    /// What was done to the value, in order.
    ghost history: { Self → List Self.Entry };

    ghost birth: { Self → Self.Birth };

    /// The number of the pass that an entry is of.
    ghost context: { Self.Entry → ℕ };
}
