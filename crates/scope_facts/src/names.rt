//! What the rules ask of each name.
ghost use Rattle.std.specs.Prelude.{◌≡◌, IfOk};
ghost use Rattle.flow_model.specs.Breaks.{is_callback_name};
ghost use Rattle.scope_facts.specs.Texts.{AreNames, IsName};

use app_model::App;
use ns_base::NameNo;
use std::alloc::{AllocError, Global};

/// What a name is: one of System's that load code, one of Class's that find or make by name, that of a class
/// initialiser, that of an initialiser, or one that a callback may have.
#[derive(Clone, Copy)]
pub struct NameRow {
    pub loads: bool,
    pub makes: bool,
    pub class_init: bool,
    pub init: bool,
    pub callback: bool,
}

#[tactic(auto, unfolding(flow_model::specs::Breaks::is_callback_name))]
fn is_callback_name(name: &[u8]) -> bool
    ensures { result ≡ is_callback_name name.now }
{
    match name {
        b"run" => true,
        [b'o', b'n', letter, ..] => b'A' <= *letter && *letter <= b'Z',
        _ => false,
    }
}

fn row_of(name: &[u8]) -> NameRow
    ensures { IsName name.now result }
{
    NameRow {
        loads: name == b"load".as_slice() || name == b"loadLibrary".as_slice(),
        makes: name == b"forName".as_slice() || name == b"newInstance".as_slice(),
        class_init: name == b"<clinit>".as_slice(),
        init: name == b"<init>".as_slice(),
        callback: is_callback_name(name),
    }
}

/// A row for each name.
pub fn name_rows(alloc: Global, app: &App) -> Result<Vec<NameRow>, AllocError>
    ensures { IfOk result (λ names. AreNames app.now names.items) }
{
    let mut names = Vec::with_capacity(alloc, app.name_count() as usize)?;
    for n in 0..app.name_count() {
        names.push(row_of(app.name_text(NameNo(n))))?;
    }
    Ok(names)
}
