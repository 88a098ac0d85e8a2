//! The methods that calls reach.
ghost use Rattle.std.specs.Prelude.{◌≡◌, ◌<◌, ◌≤◌, ◌+◌, IfOk, length, map, replicate, take};
ghost use Rattle.std.specs.Int.{bit_at};
ghost use Rattle.std.specs.List.{All};
ghost use Rattle.ns_base.specs.declared.rows.MethodNo.{MethodNo};
ghost use Rattle.app_model.specs.Reach.{IsReached};
ghost use Rattle.app_model.specs.Targets.{IsCallGraph};
ghost use Rattle.call_reach.specs.Spread.{Has};
ghost use Rattle.call_reach.specs.Starts.{AreReached, AreGiven, has_first_bit};

use crate::net::{Way, carry, node_count};
use app_model::{App, CallGraph};
use ns_base::{MethodNo, OutOfMemory};
use std::alloc::{AllocError, Global};

fn give(words: &mut [u64], from: &[MethodNo])
    requires { All (λ (m : MethodNo). m.0 < length words.old) from.now }
    ensures { AreGiven from.now words.old words.new }
{
    for i in 0..from.len() {
        words[from[i].0 as usize] = 1;
    }
}

// A word for each node: one for the given methods.
fn given_words(alloc: Global, from: &[MethodNo], nodes: u32) -> Result<Vec<u64>, AllocError>
    requires { All (λ (m : MethodNo). m.0 < nodes) from.now }
    ensures { IfOk result (λ words. AreGiven from.now (replicate nodes 0) words.items) }
{
    let mut words = vec![in alloc; 0; nodes as usize]?;
    give(&mut words, from);
    Ok(words)
}

fn has_first_bit(word: u64) -> bool
    ensures { result ≡ has_first_bit word }
{
    word & 1 == 1
}

fn marks_of(alloc: Global, words: &[u64], methods: u32) -> Result<Vec<bool>, AllocError>
    requires { methods ≤ length words.now }
    ensures { IfOk result (λ marks. marks.items ≡ map has_first_bit (take methods words.now)) }
{
    let mut marks = Vec::with_capacity(alloc, methods as usize)?;
    for method in 0..methods {
        marks.push(has_first_bit(words[method as usize]))?;
    }
    Ok(marks)
}

fn find_reached(
    alloc: Global,
    app: &App,
    graph: &CallGraph,
    from: &[MethodNo],
    nodes: u32,
) -> Result<Vec<bool>, AllocError>
    requires graph { IsCallGraph app.now graph.now }
    requires from { All (λ (m : MethodNo). m.0 < length app.now.methods) from.now }
    requires nodes { nodes ≡ length app.now.methods + length graph.now.sets }
    ensures { IfOk result (λ marks. AreReached app.now graph.now from.now marks.items) }
{
    let mut words = given_words(alloc, from, nodes)?;
    carry(alloc, app, graph, Way::ToCallees, &mut words)?;
    marks_of(alloc, &words, app.method_count())
}

/// Whether calls reach each method from the given ones, which are in range; a given one is reached. More
/// than 4,294,967,294 methods and sets of targets count as want of memory.
pub fn reach(
    alloc: Global,
    app: &App,
    graph: &CallGraph,
    from: &[MethodNo],
) -> Result<Vec<bool>, OutOfMemory>
    requires graph { IsCallGraph app.now graph.now }
    requires from { All (λ (m : MethodNo). m.0 < length app.now.methods) from.now }
    ensures { IfOk result (λ marks. AreReached app.now graph.now from.now marks.items) }
{
    let Some(nodes) = node_count(app, graph) else {
        return Err(OutOfMemory);
    };
    match find_reached(alloc, app, graph, from, nodes) {
        Ok(marks) => Ok(marks),
        Err(AllocError) => Err(OutOfMemory),
    }
}
