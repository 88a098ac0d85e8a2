//! The class hierarchy of one receiver: it is made, and answers.
use super::{read_app, samples};
use class_graph::{ClassGraph, Found, build};
use ns_base::{ClassNo, FieldNo, MethodNo, NameNo, ProtoNo, TypeNo};
use std::test::Fail;

// Types, and names, of the sample.
const RECEIVER: TypeNo = TypeNo(0);

const BROADCAST_RECEIVER: TypeNo = TypeNo(1);

const WAKE_LOCK: TypeNo = TypeNo(2);

const WL: NameNo = NameNo(3);

const ON_RECEIVE: NameNo = NameNo(8);

// Whether a class below one that no file has is told so.
fn tells_subtypes(graph: &ClassGraph) -> bool {
    graph.is_sub(RECEIVER, BROADCAST_RECEIVER)
        && !graph.is_sub(BROADCAST_RECEIVER, RECEIVER)
        && graph.maybe_sub(RECEIVER, WAKE_LOCK)
        && !graph.maybe_sub(WAKE_LOCK, RECEIVER)
}

#[test]
fn a_hierarchy_is_made_and_answers(rt: HostRuntime) -> Result<(), Fail> {
    let app = read_app(rt.alloc(), &samples::RECEIVER)?;
    let graph = build(rt.alloc(), &app).ok().ok_or("there is memory")?;
    assert!(rt; tells_subtypes(&graph));
    let class = ClassNo(0);
    assert_eq!(rt;
        graph.lookup(class, ON_RECEIVE, ProtoNo(0)),
        Found::App(MethodNo(0))
    );
    assert_eq!(rt; graph.lookup(class, WL, ProtoNo(0)), Found::Outside);
    assert_eq!(rt;
        graph.resolve_field(RECEIVER, WL, WAKE_LOCK),
        Some(FieldNo(0))
    );
    assert_eq!(rt; graph.resolve_field(RECEIVER, ON_RECEIVE, WAKE_LOCK), None);
    Ok(())
}
