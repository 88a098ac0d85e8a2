//! What a log is made of. Numbers count methods, lines, and views.
use report_path::{Goal, ViewStep};

/// How a line follows from those before it: a method may be entered at any status; or an instruction leads on, from the line
/// before it, with the line that is the end of the method that it calls, where it is by a call.
#[derive(Clone, Copy, Debug, PartialEq, Eq)]
pub enum Why {
    Entered,
    Led { from: u32, end: Option<u32> },
}

/// A fact of a method that was entered at a status: it may stand before an instruction at a status, may return at it, or a
/// throw may leave it.
#[derive(Clone, Copy, Debug, PartialEq, Eq)]
pub struct Line {
    pub method: u32,
    pub entry: u8,
    pub goal: Goal,
    pub status: u8,
    pub why: Why,
}

/// The lines, and the states of components, of which each follows from earlier ones and cites lines in place of bodies.
#[derive(Drop)]
pub struct FactLog {
    pub lines: Vec<Line>,
    pub views: Vec<ViewStep>,
}
