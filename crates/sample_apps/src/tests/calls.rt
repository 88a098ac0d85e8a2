//! What calls can call, and what that reaches and assigns.
ghost use Rattle.std.specs.Prelude.{◌<◌, IfOk, length};
ghost use Rattle.app_model.specs.Targets.{IsCallGraph};

use super::read_app;
use super::samples::CALLS;
use app_model::{App, CallGraph};
use call_targets::{assigns, reach, targets};
use class_graph::build;
use ns_base::MethodNo;
use std::test::Fail;

// What a call is, its method and its instruction in `data/calls.txt`, the methods that it can call, and whether it can lead
// outside.
type Row = (&'static str, (u32, u32), &'static [u32], bool);

static ROWS: [Row; 14] = [
    ("no call", (11, 0), &[], false),
    ("an override below the named class", (11, 1), &[0, 1], false),
    ("a class below one that no file has", (11, 2), &[2], true),
    (
        "one that no file has, and what may be below it",
        (11, 3),
        &[2],
        true,
    ),
    ("an array of numbers", (11, 4), &[], true),
    (
        "a lock call, though a class has its name",
        (11, 5),
        &[],
        true,
    ),
    (
        "inherited from a class that does not have the interface",
        (11, 6),
        &[6],
        true,
    ),
    ("an abstract override is passed over", (11, 7), &[0], false),
    ("the first of two methods of one name", (11, 8), &[8], false),
    ("direct", (11, 9), &[0], false),
    ("static", (11, 10), &[10], false),
    ("super", (1, 0), &[0], false),
    ("super of a class that no file has", (3, 0), &[], true),
    (
        "an array of a class that has the method",
        (13, 0),
        &[],
        true,
    ),
];

fn graph_of(rt: &HostRuntime, app: &App) -> Result<CallGraph, Fail>
    ensures { IfOk result (λ graph. IsCallGraph app.now graph) }
{
    let Ok(classes) = build(rt.alloc(), app) else {
        return Err("there is memory".into());
    };
    match targets(rt.alloc(), app, &classes) {
        Ok(graph) => Ok(graph),
        Err(_) => Err("there is memory".into()),
    }
}

fn are_methods(methods: &[MethodNo], numbers: &[u32]) -> bool {
    methods.len() == numbers.len()
        && methods
            .iter()
            .zip(numbers)
            .all(|(method, number)| method.0 == *number)
}

#[test]
fn each_kind_of_call_has_its_targets(rt: HostRuntime) -> Result<(), Fail> {
    let app = read_app(rt.alloc(), &CALLS)?;
    let graph = graph_of(&rt, &app)?;
    for (what, (method, index), callees, outside) in ROWS.iter() {
        let method = MethodNo(*method);
        assert!(rt;
            are_methods(graph.callees(method, *index), callees),
            "{what}"
        );
        assert_eq!(rt; graph.outside(method, *index), *outside, "{what}");
    }
    Ok(())
}

// Whether these methods are marked, and no other.
fn are_marked(marks: &[bool], methods: &[u32]) -> bool {
    (0u32..)
        .zip(marks.iter())
        .all(|(method, mark)| *mark == methods.contains(&method))
}

// Whether calls reach each method from one.
fn marks_from(rt: &HostRuntime, app: &App, graph: &CallGraph, from: u32) -> Result<Vec<bool>, Fail>
    requires graph { IsCallGraph app.now graph.now }
    requires from { from < length app.now.methods }
{
    match reach(rt.alloc(), app, graph, &[MethodNo(from)]) {
        Ok(marks) => Ok(marks),
        Err(_) => Err("there is memory".into()),
    }
}

#[test]
fn reach_follows_chains_of_callees(rt: HostRuntime) -> Result<(), Fail> {
    let app = read_app(rt.alloc(), &CALLS)?;
    let graph = graph_of(&rt, &app)?;
    if app.method_count() < 13 {
        return Err("as many methods".into());
    }
    let marks = marks_from(&rt, &app, &graph, 12)?;
    assert!(rt; are_marked(&marks, &[12]));
    let marks = marks_from(&rt, &app, &graph, 11)?;
    assert!(rt; are_marked(&marks, &[0, 1, 2, 6, 8, 10, 11]));
    let marks = marks_from(&rt, &app, &graph, 1)?;
    assert!(rt; are_marked(&marks, &[0, 1]));
    Ok(())
}

#[test]
fn a_store_is_assigned_by_its_method_and_its_callers(rt: HostRuntime) -> Result<(), Fail> {
    let app = read_app(rt.alloc(), &CALLS)?;
    let graph = graph_of(&rt, &app)?;
    let Ok(masks) = assigns(rt.alloc(), &app, &graph) else {
        return Err("there is memory".into());
    };
    for (method, mask) in (0u32..).zip(masks.iter()) {
        let stores = method == 10 || method == 11;
        assert_eq!(rt; *mask, stores as u64, "{method}");
    }
    Ok(())
}
