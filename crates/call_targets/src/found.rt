//! A set of targets, made of what look-ups find.
ghost use Rattle.std.specs.Prelude.{◌≡◌, ◌<◌, ℕ, IfOk, IfSome, filter_map, is_none, map};
ghost use Rattle.std.specs.List.{All, list_any};
ghost use Rattle.app_model.specs.Targets.{method_no, row_of};
ghost use Rattle.class_graph.specs.Answers.{found_number};
ghost use Rattle.class_graph.specs.declared.graph.Found.{Found};

use app_model::TargetRow;
use class_graph::Found;
use ns_base::MethodNo;
use std::alloc::{AllocError, Global};

// The methods that were found, by number.
#[tactic(auto, using(crate::proofs::Rows::found_app, crate::proofs::Rows::found_outside))]
fn numbers_of(alloc: Global, found: &[Found]) -> Result<Vec<u32>, AllocError>
    ensures { IfOk result (λ numbers. numbers.items ≡ filter_map found_number found.now) }
{
    let mut numbers = Vec::new(alloc);
    for i in 0..found.len() {
        if let Found::App(method) = found[i] {
            numbers.push(method.0)?;
        }
    }
    Ok(numbers)
}

fn methods_of(alloc: Global, numbers: &[u32]) -> Result<Vec<MethodNo>, AllocError>
    ensures { IfOk result (λ methods. methods.items ≡ map method_no numbers.now) }
{
    let mut methods = Vec::with_capacity(alloc, numbers.len())?;
    for i in 0..numbers.len() {
        methods.push(MethodNo(numbers[i]))?;
    }
    Ok(methods)
}

// Whether a look-up led outside.
fn leads_outside(found: &[Found]) -> bool
    ensures { result ≡ list_any (λ (f : Found). is_none (found_number f)) found.now }
{
    for i in 0..found.len() {
        if let Found::Outside = found[i] {
            return true;
        }
    }
    false
}

/// The set of what was found: each method once, rising, and whether a look-up led outside.
pub(crate) fn row_of(alloc: Global, found: &[Found]) -> Result<TargetRow, AllocError>
    ensures { IfOk result (λ row. (methods : ℕ) → All (λ (f : Found). IfSome (found_number f) (λ m. m < methods)) found.now
        → row ≡ row_of methods (map found_number found.now)) }
{
    let mut numbers = numbers_of(alloc, found)?;
    numbers.sort_unstable();
    numbers.dedup();
    let callees = methods_of(alloc, &numbers)?;
    Ok(TargetRow {
        callees,
        outside: leads_outside(found),
    })
}
