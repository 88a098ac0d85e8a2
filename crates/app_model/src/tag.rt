//! What is known of the value in a register.
use ns_base::LockNo;

/// What a register holds, as far as the rules follow it. `docs/analysis.md` has the order of tags.
#[derive(Clone, Copy, Debug, PartialEq, Eq)]
pub enum Tag {
    /// Nothing: the place is never reached.
    Bot,
    /// Null, or the number zero.
    Zero,
    /// Neither null nor a lock.
    Solid,
    /// Whether the lock of this field is held.
    Held(LockNo),
    /// No lock.
    Any,
    /// What this lock field holds.
    Field(LockNo),
    /// A lock made at this site that no field holds yet.
    New(u32),
    /// Anything.
    Mixed,
}
