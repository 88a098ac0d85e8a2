//! Bits of methods, taken to all that call them.
ghost use Rattle.std.specs.Prelude.{◌≡◌, ◌<◌, ◌+◌, ◌^◌, IfOk, length, replicate};
ghost use Rattle.app_model.specs.Targets.{IsCallGraph};
ghost use Rattle.call_reach.specs.Starts.{AreGathered};

use crate::net::{Way, carry, node_count};
use app_model::{App, CallGraph};
use ns_base::OutOfMemory;
use std::alloc::{AllocError, Global};

fn no_words(alloc: Global, count: usize) -> Result<Vec<u64>, AllocError>
    ensures { IfOk result (λ words. words.items ≡ replicate count 0) }
{
    Ok(vec![in alloc; 0; count]?)
}

fn gather(
    alloc: Global,
    app: &App,
    graph: &CallGraph,
    own: Vec<u64>,
) -> Result<Vec<u64>, AllocError>
    requires graph { IsCallGraph app.now graph.now }
    requires own { length own.items ≡ length app.now.methods }
    requires nodes { length app.now.methods + length graph.now.sets < 2 ^ 32 }
    ensures { IfOk result (λ words. AreGathered app.now graph.now own.items words.items) }
{
    let none = no_words(alloc, graph.set_count())?;
    let mut words = own;
    words.extend_from_slice(&none)?;
    carry(alloc, app, graph, Way::ToCallers, &mut words)?;
    words.truncate(app.method_count() as usize);
    Ok(words)
}

/// For each method a word: the bits of all words of the methods that its calls reach, and its own. `own` has a
/// word for each method. More than 4,294,967,294 methods and sets of targets count as want of memory.
pub fn gathers(
    alloc: Global,
    app: &App,
    graph: &CallGraph,
    own: Vec<u64>,
) -> Result<Vec<u64>, OutOfMemory>
    requires graph { IsCallGraph app.now graph.now }
    requires own { length own.items ≡ length app.now.methods }
    ensures { IfOk result (λ words. AreGathered app.now graph.now own.items words.items) }
{
    if node_count(app, graph).is_none() {
        return Err(OutOfMemory);
    }
    match gather(alloc, app, graph, own) {
        Ok(words) => Ok(words),
        Err(AllocError) => Err(OutOfMemory),
    }
}
