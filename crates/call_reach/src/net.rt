//! Links between the methods of an application and the sets of what calls can call. A node is a method by
//! its number, or past all methods a set by its number.
ghost use Rattle.std.specs.Prelude.{◌≡◌, ◌<◌, ◌+◌, ◌^◌, ◌++◌, ◌∷◌, [], IfOk, IfSome, length};
ghost use Rattle.app_model.specs.CallGraph.{FitsCode, IsGraph};
ghost use Rattle.call_reach.specs.Net.{link_by, UsesAt, UsesIn, Uses, HasAt, HasIn, Haves, Adds, AreLinks, IsCarried};
ghost use Rattle.call_reach.specs.Spread.{AreWithin};

use crate::links::{Link, Links};
use crate::spread::spread;
use app_model::{App, CallGraph};
use ns_base::MethodNo;
use std::alloc::{AllocError, Global};

/// Where links lead: from a caller to its callees, or back.
#[derive(Clone, Copy)]
pub(crate) enum Way {
    ToCallees,
    ToCallers,
}

/// How many nodes there are; none where their numbers are too great.
pub(crate) fn node_count(app: &App, graph: &CallGraph) -> Option<u32>
    ensures { IfSome result (λ nodes. nodes ≡ length app.now.methods + length graph.now.sets) }
{
    let nodes = app.method_count() as u64 + graph.set_count() as u64;
    if nodes < u32::MAX as u64 {
        Some(nodes as u32)
    } else {
        None
    }
}

fn add(links: &mut Links, way: Way, caller: u32, callee: u32) -> Result<(), AllocError>
    ensures { IfOk result (λ done. links.new ≡ links.old ++ link_by way caller callee ∷ []) }
{
    let link = match way {
        Way::ToCallees => Link {
            from: caller,
            to: callee,
        },
        Way::ToCallers => Link {
            from: callee,
            to: caller,
        },
    };
    links.add(link)
}

// From a method to the set that an instruction uses.
fn add_use(
    graph: &CallGraph,
    way: Way,
    links: &mut Links,
    methods: u32,
    method: u32,
    index: u32,
) -> Result<(), AllocError>
    requires graph { IsGraph graph.now }
    requires nodes { methods + length graph.now.sets < 2 ^ 32 }
    ensures { IfOk result (λ done. Adds (UsesAt graph.now way methods method index) links.old links.new) }
{
    match graph.set_used(MethodNo(method), index) {
        Some(set) => add(links, way, method, methods + set),
        None => Ok(()),
    }
}

fn add_uses(
    app: &App,
    graph: &CallGraph,
    way: Way,
    links: &mut Links,
    method: u32,
) -> Result<(), AllocError>
    requires graph { IsGraph graph.now }
    requires fits { FitsCode app.now graph.now }
    requires nodes { length app.now.methods + length graph.now.sets < 2 ^ 32 }
    requires method { method < length app.now.methods }
    ensures { IfOk result (λ done. Adds (UsesIn graph.now way (length app.now.methods) method) links.old links.new) }
{
    let methods = app.method_count();
    for index in 0..app.code_len(MethodNo(method)) {
        add_use(graph, way, links, methods, method, index)?;
    }
    Ok(())
}

fn add_all_uses(app: &App, graph: &CallGraph, way: Way, links: &mut Links) -> Result<(), AllocError>
    requires graph { IsGraph graph.now }
    requires fits { FitsCode app.now graph.now }
    requires nodes { length app.now.methods + length graph.now.sets < 2 ^ 32 }
    ensures { IfOk result (λ done. Adds (Uses graph.now way (length app.now.methods)) links.old links.new) }
{
    for method in 0..app.method_count() {
        add_uses(app, graph, way, links, method)?;
    }
    Ok(())
}

// From a set to the methods that it has.
fn add_callees(
    graph: &CallGraph,
    way: Way,
    links: &mut Links,
    methods: u32,
    set: u32,
) -> Result<(), AllocError>
    requires nodes { methods + length graph.now.sets < 2 ^ 32 }
    requires set { set < length graph.now.sets }
    ensures { IfOk result (λ done. Adds (HasIn graph.now way methods set) links.old links.new) }
{
    let callees = graph.set_callees(set as usize);
    for place in 0..callees.len() {
        add(links, way, methods + set, callees[place].0)?;
    }
    Ok(())
}

fn add_all_callees(
    graph: &CallGraph,
    way: Way,
    links: &mut Links,
    methods: u32,
) -> Result<(), AllocError>
    requires { methods + length graph.now.sets < 2 ^ 32 }
    ensures { IfOk result (λ done. Adds (Haves graph.now way methods) links.old links.new) }
{
    for set in 0..graph.set_count() as u32 {
        add_callees(graph, way, links, methods, set)?;
    }
    Ok(())
}

fn links_of(
    alloc: Global,
    app: &App,
    graph: &CallGraph,
    way: Way,
    nodes: usize,
) -> Result<Links, AllocError>
    requires fits { FitsCode app.now graph.now }
    requires nodes { length app.now.methods + length graph.now.sets < 2 ^ 32 }
    ensures links { IfOk result (AreLinks graph.now way (length app.now.methods)) }
    ensures within { IfOk result (AreWithin (length app.now.methods + length graph.now.sets)) }
{
    graph.told();
    let mut links = Links::new(alloc, nodes)?;
    add_all_uses(app, graph, way, &mut links)?;
    add_all_callees(graph, way, &mut links, app.method_count())?;
    Ok(links)
}

/// Takes the bits of all nodes on to their callees, or to their callers.
pub(crate) fn carry(
    alloc: Global,
    app: &App,
    graph: &CallGraph,
    way: Way,
    words: &mut [u64],
) -> Result<(), AllocError>
    requires fits { FitsCode app.now graph.now }
    requires nodes { length app.now.methods + length graph.now.sets < 2 ^ 32 }
    requires words { length words.old ≡ length app.now.methods + length graph.now.sets }
    ensures { IfOk result (λ done. IsCarried graph.now way (length app.now.methods) words.old words.new) }
{
    let links = links_of(alloc, app, graph, way, words.len())?;
    spread(alloc, &links, words)
}
