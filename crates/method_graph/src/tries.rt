//! The handlers that a throw can come to.
ghost use Rattle.std.specs.Prelude.{◌≡◌, ◌<◌, ◌≤◌, ◌+◌, ℕ, [], ◌∷◌, None, length, drop, slice_index_or, List, IfOk, IfSome, option_copied, option_map};
ghost use Rattle.method_graph.specs.Exact.{IsExact};
ghost use Rattle.std.specs.List.{AllPairs};
ghost use Rattle.method_graph.specs.Tries.{AreTries, IsCaught, IsPast, bad_target, catches_all, handlers_in, indices_of, is_all, may_leave, try_at, up_to_all};
ghost use Rattle.dex_tables.specs.Content.{AreTablesOf};
ghost use Rattle.dex_code.specs.declared.code.TryRow.{TryRow};
ghost use Rattle.dex_code.specs.declared.code.Handler.{Handler};

use crate::operands::name_of;
use crate::sweep::{Found, Sweep};
use dalvik::Few;
use dex_code::{Handler, TryRow};
use dex_tables::Tables;
use std::alloc::{AllocError, Global};

/// Whether a handler of that type catches every type.
fn catches_every(bytes: &[u8], tables: &Tables, caught: Option<u32>) -> bool
    requires tables { AreTablesOf bytes.now tables.now }
    requires kind { IsCaught bytes.now caught }
    ensures { result ≡ is_all bytes.now caught }
{
    match caught {
        None => true,
        Some(kind) => name_of(bytes, tables, kind) == b"Ljava/lang/Throwable;".as_slice(),
    }
}

/// The lowest target of a handler where no instruction starts.
pub fn find_bad_target(sweep: &Sweep, handlers: &[Handler]) -> Option<u32>
    ensures { result ≡ bad_target sweep.now.rows None handlers.now }
{
    let mut low: Option<u32> = None;
    for handler in handlers {
        low = lower_target(sweep, low, handler.target);
    }
    low
}

fn lower_target(sweep: &Sweep, low: Option<u32>, target: u32) -> Option<u32>
    ensures { (more : List Handler) (handler : Handler) → handler.target ≡ target → bad_target sweep.now.rows low (handler ∷ more) ≡ bad_target sweep.now.rows result more }
{
    if let Found::Start(_) = sweep.find(target) {
        return low;
    }
    match low {
        Some(pc) if pc <= target => low,
        _ => Some(target),
    }
}

/// The first try from a place on that does not end at the pc or before it.
pub fn advance(tries: &[TryRow], mut at: usize, pc: u32) -> usize
    requires range { (t : ℕ) (d : TryRow) → t < length tries.now → (slice_index_or tries.now t d).start + (slice_index_or tries.now t d).count ≤ 4194304 }
    requires past { IsPast tries.now at pc }
    ensures past { IsPast tries.now result pc }
    ensures here { (d : TryRow) → result < length tries.now → pc < (slice_index_or tries.now result d).start + (slice_index_or tries.now result d).count }
{
    while at < tries.len() && tries[at].start + tries[at].count <= pc {
        at += 1;
    }
    at
}

/// The try that covers the pc, where those before the place do not, and the one there does not end before it.
pub fn find_try(tries: &[TryRow], at: usize, pc: u32) -> Option<TryRow>
    requires forward { AllPairs (λ a b. a.start + a.count ≤ b.start) tries.now }
    requires past { IsPast tries.now at pc }
    requires here { (d : TryRow) → at < length tries.now → pc < (slice_index_or tries.now at d).start + (slice_index_or tries.now at d).count }
    ensures { result ≡ try_at tries.now pc }
{
    if at >= tries.len() {
        return None;
    }
    let row = tries[at];
    if row.start > pc { None } else { Some(row) }
}

/// The handlers of a try.
pub fn take_handlers(handlers: &[Handler], row: Option<TryRow>) -> &[Handler]
    requires { IfSome row (λ row. row.handlers.at + row.handlers.len ≤ length handlers.now) }
    ensures { result.now ≡ handlers_in handlers.now row }
{
    match row {
        None => &[],
        Some(row) => {
            let (_, rest) = handlers.split_at(row.handlers.at as usize);
            let (front, _) = rest.split_at(row.handlers.len as usize);
            front
        }
    }
}

/// The indices of the instructions that a throw can come to.
pub fn find_handlers(
    alloc: Global,
    bytes: &[u8],
    tables: &Tables,
    sweep: &Sweep,
    handlers: &[Handler],
) -> Result<Few, AllocError>
    requires tables { AreTablesOf bytes.now tables.now }
    requires caught { (k : ℕ) (d : Handler) → k < length handlers.now → IsCaught bytes.now (slice_index_or handlers.now k d).caught }
    ensures { IfOk result (λ few. few ≡ indices_of sweep.now.rows (up_to_all bytes.now handlers.now)) }
{
    let mut indices = Few::new();
    for handler in handlers {
        if let Found::Start(index) = sweep.find(handler.target) {
            indices.push(alloc, index)?;
        }
        if catches_every(bytes, tables, handler.caught) {
            return Ok(indices);
        }
    }
    Ok(indices)
}

/// Whether a throw can leave the method.
pub fn leaves_from(bytes: &[u8], tables: &Tables, handlers: &[Handler]) -> bool
    requires tables { AreTablesOf bytes.now tables.now }
    requires caught { (k : ℕ) (d : Handler) → k < length handlers.now → IsCaught bytes.now (slice_index_or handlers.now k d).caught }
    ensures { result ≡ may_leave bytes.now handlers.now }
{
    for handler in handlers {
        if catches_every(bytes, tables, handler.caught) {
            return false;
        }
    }
    true
}
