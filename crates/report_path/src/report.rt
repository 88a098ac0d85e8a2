//! What a report is made of. Numbers count methods, components, edges of a lifecycle, and the bodies and views of the report.
ghost use Rattle.std.specs.Prelude.{◌≡◌};
ghost use Rattle.report_path.specs.Reports.{violation_of};

use flow_model::Violation;
use std::alloc::Global;

/// An instruction of a body, by its pc, with the status before it, and the number of the body that it cites: of the method
/// that is called there, up to its end.
#[derive(Clone, Copy, Debug, PartialEq, Eq)]
pub struct Step {
    pub pc: u32,
    pub status: u8,
    pub cites: Option<u32>,
}

/// A way through a method, from its entry at a status to where it returns, or where a throw leaves it.
#[derive(Drop)]
pub struct BodyPath {
    pub method: u32,
    pub entry: u8,
    pub thrown: bool,
    pub exit: u8,
    pub steps: Vec<Step>,
}

/// The end of a way through a method: where it was entered, and how and with what status it ends.
#[derive(Clone, Copy, Debug, PartialEq, Eq)]
pub struct End {
    pub method: u32,
    pub entry: u8,
    pub thrown: bool,
    pub exit: u8,
}

/// How a component comes to a state and a status: it begins so; an edge of its own leads on from a view, whose callback is
/// outside, or is a method with the cited body; or the edge of another component leads on, from the view of that one.
#[derive(Clone, Copy, Debug, PartialEq, Eq)]
pub enum By {
    Start,
    Outside {
        view: u32,
        edge: u32,
    },
    Own {
        view: u32,
        edge: u32,
        body: u32,
    },
    Other {
        view: u32,
        mover: u32,
        edge: u32,
        body: Option<u32>,
    },
}

/// A component in a state while the field has a status, at an idle moment.
#[derive(Clone, Copy, Debug, PartialEq, Eq)]
pub struct ViewStep {
    pub component: u32,
    pub state: u8,
    pub status: u8,
    pub by: By,
}

/// A violation of the exit policy, with a way to it. The last step is an edge from a view, by a body where its callback is a
/// method.
#[derive(Drop)]
pub struct Report {
    pub component: u32,
    pub callback: u32,
    pub lock: u32,
    pub status: u8,
    pub bodies: Vec<BodyPath>,
    pub views: Vec<ViewStep>,
    pub view: u32,
    pub edge: u32,
    pub body: Option<u32>,
}

impl Report {
    /// A report of a violation that has no path yet. Takes no memory.
    pub fn bare(alloc: Global, violation: Violation) -> Report
        ensures { violation_of result ≡ violation }
    {
        Report {
            component: violation.component,
            callback: violation.callback,
            lock: violation.lock,
            status: violation.status,
            bodies: Vec::new(alloc),
            views: Vec::new(alloc),
            view: 0,
            edge: 0,
            body: None,
        }
    }

    /// The violation of which it is a report.
    pub fn violation(&self) -> Violation
        ensures { result ≡ violation_of self.now }
    {
        Violation {
            component: self.component,
            callback: self.callback,
            lock: self.lock,
            status: self.status,
        }
    }
}
