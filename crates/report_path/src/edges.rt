//! The edges of lifecycles, and the status at which each begins its callback.
ghost use Rattle.std.specs.Prelude.{◌≡◌, ◌↔◌, IsTrue, None, length};
ghost use Rattle.app_model.specs.Components.{callback_at, edge_at};
ghost use Rattle.flow_model.specs.Rules as rules;

use app_model::{Edge, Subject};
use component_list::edge;
use ns_base::{ComponentNo, LockNo};

// Each status where an edge clears the field.
const RESET: [u8; 8] = [0, 0, 7, 7, 7, 0, 7, 7];

/// A lock field of a subject, whose components have edges.
#[derive(Clone, Copy)]
pub struct Edges<'a> {
    pub subject: &'a Subject,
    pub lock: LockNo,
}

impl Edges<'_> {
    pub fn component_count(&self) -> usize
        ensures { result ≡ length self.now.subject.now.list }
    {
        let subject = self.subject;
        subject.list.rows.len()
    }

    /// An edge of a component.
    #[tactic(auto, unfolding(app_model::specs::Components::edge_at))]
    pub fn edge(&self, component: u32, number: u32) -> Option<Edge>
        ensures { result ≡ edge_at self.now.subject.now.list component number }
    {
        let subject = self.subject;
        match subject.list.rows.get(component as usize) {
            Some(row) => edge(row.kind, number),
            None => None,
        }
    }

    /// The method of its callback, where the application has one.
    pub fn callback(&self, component: u32, edge: Edge) -> Option<u32>
        ensures { result ≡ callback_at self.now.subject.now.list component edge.callback }
    {
        let subject = self.subject;
        match subject
            .list
            .callback(ComponentNo(component), edge.callback as u32)
        {
            Some(method) => Some(method.0),
            None => None,
        }
    }

    fn clears(&self, component: u32, edge: Edge) -> bool
        ensures { result ≡ rules.clears self.now.subject.now component edge self.now.lock.0 }
    {
        let subject = self.subject;
        subject.told();
        if self.lock.0 >= subject.lock_count() {
            return false;
        }
        match subject.owner(self.lock) {
            Some(owner) => edge.creates && owner.0 == component,
            None => false,
        }
    }

    /// The status at which an edge begins its callback.
    pub fn enter(&self, component: u32, edge: Edge, status: u8) -> u8
        ensures { result ≡ rules.entered self.now.subject.now self.now.lock.0 component edge status }
    {
        if !self.clears(component, edge) {
            return status;
        }
        if status >= 8 {
            return 0;
        }
        RESET[status as usize]
    }
}

/// Whether nothing is cited, and the status is that of the entry.
pub fn stays(body: Option<u32>, entry: u8, status: u8) -> bool
    ensures { IsTrue result ↔ (body ≡ None) × (status ≡ entry) }
{
    match body {
        Some(_) => false,
        None => status == entry,
    }
}
