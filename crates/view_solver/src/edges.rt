//! The edges of a component's lifecycle.
ghost use Rattle.std.specs.Prelude.{◌≡◌, ◌<◌, ℕ, length, Some, IfSome};
ghost use Rattle.app_model.specs.Components.{edge_at};
ghost use Rattle.app_model.specs.declared.component.Edge.{Edge};

use app_model::{Edge, Subject};
use component_list::{edge, edge_count};
use ns_base::ComponentNo;

/// An edge of a component, from 0; none from the count on.
#[tactic(auto, using(crate::proofs::Lifecycles::edge_small), unfolding(app_model::specs::Components::edge_at))]
pub fn edge_of(subject: &Subject, component: ComponentNo, number: u32) -> Option<Edge>
    ensures edge { result ≡ edge_at subject.now.list component.0 number }
    ensures small { IfSome result (λ e. (e.from < 8) × (e.to < 8)) }
{
    let Some(row) = subject.list.rows.get(component.0 as usize) else {
        return None;
    };
    edge(row.kind, number)
}

#[tactic(auto, using(crate::proofs::Lifecycles::edge_within), unfolding(app_model::specs::Components::edge_at))]
pub fn edges_of(subject: &Subject, component: ComponentNo) -> u32
    ensures { (e : ℕ) (edge : Edge) → edge_at subject.now.list component.0 e ≡ Some edge → e < result }
{
    let Some(row) = subject.list.rows.get(component.0 as usize) else {
        return 0;
    };
    edge_count(row.kind)
}

pub fn component_count(subject: &Subject) -> u32
    ensures { result ≡ length subject.now.list }
{
    subject.told();
    subject.list.rows.len() as u32
}
