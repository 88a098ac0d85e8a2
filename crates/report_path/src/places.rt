//! Instructions by their pcs.
ghost use Rattle.std.specs.Prelude.{◌≡◌, ◌<◌, ◌↔◌, IfSome, IsTrue, Some, length};
ghost use Rattle.app_model.specs.Words.{code_len, pc_at};
ghost use Rattle.report_path.specs.Paths.{index_at};
ghost use Rattle.report_path.specs.Tests.{IsFrom};

use app_model::App;
use ns_base::MethodNo;

/// The instruction of a method at a pc.
pub fn index_of(app: &App, method: u32, pc: u32) -> Option<u32>
    ensures index { result ≡ index_at app.now method pc }
    ensures method { IfSome result (λ i. method < length app.now.methods) }
    ensures within { IfSome result (λ i. i < code_len app.now method) }
{
    app.told();
    if method >= app.method_count() {
        return None;
    }
    let index = first_from(app, MethodNo(method), pc);
    if is_at(app, MethodNo(method), index, pc) {
        Some(index)
    } else {
        None
    }
}

fn is_at(app: &App, method: MethodNo, index: u32, pc: u32) -> bool
    requires { method.0 < length app.now.methods }
    ensures { IsTrue result ↔ (pc_at app.now method.0 index ≡ Some pc) }
{
    if index >= app.code_len(method) {
        return false;
    }
    app.ins(method, index).0 == pc
}

// The first instruction from which on no pc is below that one, by halves.
fn first_from(app: &App, method: MethodNo, pc: u32) -> u32
    requires { method.0 < length app.now.methods }
    ensures { IsFrom app.now method.0 pc result }
{
    app.told();
    let mut low = 0;
    let mut high = app.code_len(method);
    while low < high {
        let middle = low + (high - low) / 2;
        if app.ins(method, middle).0 < pc {
            low = middle + 1;
        } else {
            high = middle;
        }
    }
    low
}
