//! The masks of a body row.

/// A mask of a body row: before an instruction, or where the method ends.
#[derive(Clone, Copy)]
pub enum Which {
    Before(u32),
    Returned,
    Thrown,
}
