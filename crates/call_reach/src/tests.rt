//! Bits along links that are made by hand.
mod reach;
