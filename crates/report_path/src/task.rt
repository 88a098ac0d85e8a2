//! A lock field of a subject with the bodies of a report, and where the edges of lifecycles carry its status.
ghost use Rattle.std.specs.Prelude.{◌≡◌, ◌↔◌, ◌∷◌, [], IsTrue, None, length};
ghost use Rattle.app_model.specs.Components.{callback_at, edge_at};
ghost use Rattle.app_model.specs.Facts.{Ret};
ghost use Rattle.flow_model.specs.Rules as rules;
ghost use Rattle.flow_model.specs.Rules.{Carries};
ghost use Rattle.report_path.specs.Lookups.{Has};
ghost use Rattle.report_path.specs.Paths.{cited_in};
ghost use Rattle.report_path.specs.Tests.{IsReturn, Shows, case_in};
ghost use Rattle.report_path.specs.Views.{Moves};

use crate::edges::{Edges, stays};
use crate::report::{BodyPath, ViewStep};
use crate::views::Carrier;
use app_model::{Edge, Subject};
use ns_base::LockNo;
use std::marker::Model;

/// A lock field of a subject, and the bodies of a report.
#[derive(Drop)]
pub struct Task<'a> {
    edges: Edges<'a>,
    bodies: &'a [BodyPath],
}

impl<'a> Model for Task<'a> {
    ghost use Rattle.report_path.specs.Tests.{Given};

    ghost Value = { Given };

    ghost view = { λ t. record { subject = t.edges.subject.now; lock = t.edges.lock.0; bodies = t.bodies.now } };
}

impl<'a> Task<'a> {
    pub fn new(subject: &'a Subject, lock: LockNo, bodies: &'a [BodyPath]) -> Task<'a>
        ensures { result ≡ record { subject = subject.now; lock = lock.0; bodies = bodies.now } }
    {
        Task {
            edges: Edges { subject, lock },
            bodies,
        }
    }

    // Whether the cited body shows that a method returns.
    fn shows(&self, body: Option<u32>, method: u32, entry: u8, exit: u8) -> bool
        ensures { IsTrue result ↔ Shows (cited_in self.now.bodies) body (Ret method entry exit) }
    {
        let Some(number) = body else {
            return false;
        };
        let number = number as usize;
        if number >= self.bodies.len() {
            return false;
        }
        is_return(&self.bodies[number], method, entry, exit)
    }

    fn carries(&self, view: ViewStep, edge: Edge, body: Option<u32>, status: u8) -> bool
        ensures { IsTrue result ↔ Has (cited_in self.now.bodies body) (λ ends. Carries self.now.subject self.now.lock view.component edge view.status status ends) }
    {
        let entry = self.edges.enter(view.component, edge, view.status);
        match self.edges.callback(view.component, edge) {
            Some(method) => self.shows(body, method, entry, status),
            None => stays(body, entry, status),
        }
    }
}

impl<'a> Carrier for Task<'a> {
    ghost case = { λ t. case_in t };

    fn component_count(&self) -> usize
        ensures { result ≡ length self.now.subject.list }
    {
        self.edges.component_count()
    }

    fn edge(&self, component: u32, number: u32) -> Option<Edge>
        ensures { result ≡ edge_at self.now.subject.list component number }
    {
        self.edges.edge(component, number)
    }

    fn moves(&self, view: ViewStep, edge: Edge, body: Option<u32>, status: u8) -> bool
        ensures { IsTrue result ↔ Moves (case_in self.now) view edge body status }
    {
        if edge.from != view.state {
            return false;
        }
        self.carries(view, edge, body, status)
    }
}

fn is_return(body: &BodyPath, method: u32, entry: u8, exit: u8) -> bool
    ensures { IsTrue result ↔ IsReturn body.now method entry exit }
{
    if body.thrown {
        return false;
    }
    body.method == method && body.entry == entry && body.exit == exit
}
