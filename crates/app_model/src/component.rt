//! Components: their kinds, the edges of their lifecycles, and the rows of a component list.
ghost use Rattle.std.specs.Prelude.{◌≡◌, option_map};
ghost use Rattle.app_model.specs.Components.{callback_at};
ghost use Rattle.ns_base.specs.declared.rows.MethodNo.{MethodNo};

use ns_base::{ClassNo, ComponentNo, MethodNo};
use std::marker::Model;

/// What a component is. `docs/model.md` has the lifecycle of each kind.
#[derive(Clone, Copy, Debug, PartialEq, Eq)]
pub enum Kind {
    Activity,
    Service,
    Receiver,
    Runnable,
}

/// An edge of a lifecycle: from a state, by a callback, to a state. An edge that creates clears the
/// instance lock fields that the component owns before its callback runs.
#[derive(Clone, Copy, Debug, PartialEq, Eq)]
pub struct Edge {
    pub from: u8,
    pub to: u8,
    pub callback: u8,
    pub creates: bool,
}

/// A listed component. Bit k of `exits` says whether callback k is a policy exit; `methods[k]` is the
/// method of callback k, or none where the application has none.
#[derive(Drop)]
pub struct ComponentRow {
    pub class: ClassNo,
    pub kind: Kind,
    pub exits: u8,
    pub methods: Vec<Option<MethodNo>>,
}

impl Model for ComponentRow {
    ghost use Rattle.app_model.specs.Components.{ComponentParts};

    ghost Value = { ComponentParts };

    ghost view = { λ c. record { class = c.class; kind = c.kind; exits = c.exits; methods = c.methods.items } };
}

/// The listed components; `ComponentNo(i)` is place i.
#[derive(Drop)]
pub struct ComponentTable {
    pub rows: Vec<ComponentRow>,
}

impl Model for ComponentTable {
    ghost use Rattle.std.specs.Prelude.{List};
    ghost use Rattle.app_model.specs.Components.{ComponentParts};

    ghost Value = { List ComponentParts };

    ghost view = { λ t. t.rows.items };
}

impl ComponentTable {
    /// The method of a component's callback; none out of range, and where the application has none.
    #[tactic(auto, unfolding(crate::specs::Components::callback_at))]
    pub fn callback(&self, component: ComponentNo, callback: u32) -> Option<MethodNo>
        ensures { option_map (λ (m : MethodNo). m.0) result ≡ callback_at self.now component.0 callback }
    {
        let Some(row) = self.rows.get(component.0 as usize) else {
            return None;
        };
        match row.methods.get(callback as usize) {
            Some(method) => *method,
            None => None,
        }
    }
}
