//! What becomes of an outcome.

/// What became of an outcome that was delivered.
#[derive(Clone, Copy, Debug, PartialEq, Eq)]
pub enum Fate {
    /// Its situation is held, and its next situation was added.
    Accepted,
    /// Its pair is looked at, and nothing was added.
    Known,
    /// Its situation isn't held, or its operation isn't the next one there.
    Stale,
    /// Its next situation is new, and as many are held as may be.
    Full,
    /// Memory was refused.
    Refused,
}
