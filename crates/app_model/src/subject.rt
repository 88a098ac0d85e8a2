//! All that is said of an application, as the rules read it.
ghost use Rattle.std.specs.Prelude.{◌≡◌, ◌<◌, ◌≤◌, length, true, option_map, slice_get, IfSome};
ghost use Rattle.std.specs.List.{All};
ghost use Rattle.app_model.specs.CallGraph.{AreRising};
ghost use Rattle.app_model.specs.Subject.{IsSubject, IsEnterable, slot_count, is_reached, callees_at, answers_at, owner_at};
ghost use Rattle.app_model.specs.Components.{callback_at};
ghost use Rattle.app_model.specs.Shown.{lock_text};
ghost use Rattle.ns_base.specs.declared.rows.ComponentNo.{ComponentNo};
ghost use Rattle.ns_base.specs.declared.rows.MethodNo.{MethodNo};

use crate::app::App;
use crate::call_graph::CallGraph;
use crate::component::ComponentTable;
use crate::tag_table::TagTable;
use ns_base::{ComponentNo, LockNo, MethodNo};
use std::marker::Model;

/// An application with its call graph, its component list and its tags. `reached` has an entry for
/// each method; bit l of `answers[c]` says whether component c answers for lock l; `owners[l]` is the
/// component whose creation clears instance lock l.
#[derive(Drop)]
pub struct Subject {
    pub app: App,
    pub graph: CallGraph,
    pub list: ComponentTable,
    pub tags: TagTable,
    pub reached: Vec<bool>,
    pub answers: Vec<u64>,
    pub owners: Vec<Option<ComponentNo>>,
}

impl Model for Subject {
    ghost use Rattle.app_model.specs.Subject.{SubjectParts, IsSubject};

    ghost Value = { SubjectParts };

    ghost view = { λ s. record {
      app = s.app;
      graph = s.graph;
      list = s.list;
      tags = s.tags;
      reached = s.reached.items;
      answers = s.answers.items;
      owners = s.owners.items;
    } };

    ghost invariant = { λ s. IsSubject (record {
      app = s.app;
      graph = s.graph;
      list = s.list;
      tags = s.tags;
      reached = s.reached.items;
      answers = s.answers.items;
      owners = s.owners.items;
    }) };
}

impl Subject {
    /// What holds of each subject.
    pub fn told(&self)
        ensures { IsSubject self.now }
    {
        let _ = &self.app;
    }

    /// How many locks are solved, one at a time.
    #[tactic(auto, unfolding(crate::specs::Subject::slot_count))]
    pub fn lock_count(&self) -> u32
        ensures count { result ≡ slot_count self.now }
        ensures limit { result ≤ 64 }
    {
        self.app.locks().len() as u32
    }

    /// Whether the callbacks reach a method.
    #[tactic(auto, unfolding(crate::specs::Subject::is_reached))]
    pub fn reaches(&self, method: MethodNo) -> bool
        requires { method.0 < length self.now.app.methods }
        ensures { result ≡ is_reached self.now method.0 }
    {
        self.reached[method.0 as usize]
    }

    /// The method of a component's callback, or none where the application has none.
    pub fn callback(&self, component: ComponentNo, callback: u32) -> Option<MethodNo>
        requires { component.0 < length self.now.list }
        ensures callback { option_map (λ (m : MethodNo). m.0) result ≡ callback_at self.now.list component.0 callback }
        ensures entered { IfSome result (λ m. IsEnterable self.now m.0) }
    {
        let _ = &self.app;
        self.list.callback(component, callback)
    }

    /// The methods that an instruction of a method that is reached can call, rising.
    pub fn callees(&self, method: MethodNo, index: u32) -> &[MethodNo]
        requires { is_reached self.now method.0 ≡ true }
        ensures callees { result.now ≡ callees_at self.now method.0 index }
        ensures rising { AreRising result.now }
        ensures entered { All (λ (n : MethodNo). IsEnterable self.now n.0) result.now }
    {
        self.graph.callees(method, index)
    }

    /// A byte of the name of a lock as it is shown, `CLASS->FIELD`; none from the length of the name on.
    #[tactic(auto, unfolding(crate::specs::Subject::slot_count))]
    pub fn lock_byte(&self, lock: LockNo, at: u32) -> Option<u8>
        requires { lock.0 < slot_count self.now }
        ensures { result ≡ slice_get (lock_text self.now.app lock.0) at }
    {
        self.app.lock_byte(lock, at)
    }

    /// Whether a component answers for a lock.
    #[tactic(auto, unfolding(crate::specs::Subject::answers_at))]
    pub fn answers_for(&self, component: ComponentNo, lock: LockNo) -> bool
        requires component { component.0 < length self.now.list }
        requires lock { lock.0 < slot_count self.now }
        ensures { result ≡ answers_at self.now component.0 lock.0 }
    {
        (self.answers[component.0 as usize] >> lock.0) & 1 == 1
    }

    /// The component whose creation clears a lock field.
    #[tactic(auto, unfolding(crate::specs::Subject::owner_at))]
    pub fn owner(&self, lock: LockNo) -> Option<ComponentNo>
        requires { lock.0 < slot_count self.now }
        ensures { option_map (λ (c : ComponentNo). c.0) result ≡ owner_at self.now lock.0 }
    {
        self.owners[lock.0 as usize]
    }
}
