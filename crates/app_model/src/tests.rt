//! Cells of the tag table at their borders.
mod tags;
