//! Violations of the exit policy.

/// A violation: callback `callback` of component `component`, an exit, can end at the held status
/// `status` of lock field `lock`. Each is a number; `docs/analysis.md` has the statuses.
#[derive(Clone, Copy, Debug, PartialEq, Eq)]
pub struct Violation {
    pub component: u32,
    pub callback: u32,
    pub lock: u32,
    pub status: u8,
}
