//! The rows of a component list.
use app_model::Kind;
use std::marker::Model;

/// A component: the descriptor of its class, and its policy exits, bit k for callback k of the kind.
#[derive(Drop)]
pub struct ListedRow {
    pub kind: Kind,
    pub class: String,
    pub exits: u8,
}

impl Model for ListedRow {
    ghost use Rattle.std.specs.Prelude.{string_bytes};
    ghost use Rattle.component_list.specs.Listed.{ListedParts};

    ghost Value = { ListedParts };

    ghost view = { λ r. record { kind = r.kind; class = string_bytes r.class; exits = r.exits } };
}

/// A component list, in the order of its text.
#[derive(Drop)]
pub struct Listed {
    pub rows: Vec<ListedRow>,
}

impl Model for Listed {
    ghost use Rattle.std.specs.Prelude.{List};
    ghost use Rattle.component_list.specs.Listed.{ListedParts};

    ghost Value = { List ListedParts };

    ghost view = { λ l. l.rows.items };
}
