//! The lines of a report that leaks where an outside call throws.
use crate::put_path;
use report_path::{BodyPath, By, Report, Step, ViewStep};
use std::alloc::{AllocError, Global};
use std::process::Abort;
use std::test::Fail;

// Its steps: pc, status, and the body that is cited.
static STEPS: [(u32, u8, Option<u32>); 4] = [
    (0, 0, None),
    (15, 0, None),
    (17, 1, Some(7)),
    (32, 2, None),
];

static TEXT: &[u8] = b"body 0 4294967295 A ret C1 0/A 15/A 17/C0/7 32/C1
body 1 3 L exc CT
view 0 0 0 A start
view 1 2 3 U1 outside 0 5
view 2 2 4 U0 own 1 6 0
view 3 0 0 C2 other 0 2 1 1
view 4 0 0 C1 other 0 2 1 -
exit 0 0 C1 4 0 63
";

fn steps_of(alloc: Global, steps: &[(u32, u8, Option<u32>)]) -> Result<Vec<Step>, AllocError> {
    let mut all = Vec::new(alloc);
    for (pc, status, cites) in steps {
        all.push(Step {
            pc: *pc,
            status: *status,
            cites: *cites,
        })?;
    }
    Ok(all)
}

static VIEWS: [ViewStep; 5] = [
    ViewStep {
        component: 0,
        state: 0,
        status: 0,
        by: By::Start,
    },
    ViewStep {
        component: 2,
        state: 3,
        status: 6,
        by: By::Outside { view: 0, edge: 5 },
    },
    ViewStep {
        component: 2,
        state: 4,
        status: 5,
        by: By::Own {
            view: 1,
            edge: 6,
            body: 0,
        },
    },
    ViewStep {
        component: 0,
        state: 0,
        status: 3,
        by: By::Other {
            view: 0,
            mover: 2,
            edge: 1,
            body: Some(1),
        },
    },
    ViewStep {
        component: 0,
        state: 0,
        status: 2,
        by: By::Other {
            view: 0,
            mover: 2,
            edge: 1,
            body: None,
        },
    },
];

#[test]
fn each_kind_of_line_is_written(rt: HostRuntime) -> Result<(), Fail> {
    let alloc = rt.alloc();
    let mut bodies = Vec::new(alloc);
    bodies.push(BodyPath {
        method: 4_294_967_295,
        entry: 0,
        thrown: false,
        exit: 2,
        steps: steps_of(alloc, STEPS.as_slice())?,
    })?;
    bodies.push(BodyPath {
        method: 3,
        entry: 7,
        thrown: true,
        exit: 4,
        steps: Vec::new(alloc),
    })?;
    let report = Report {
        component: 0,
        callback: 1,
        lock: 63,
        status: 2,
        bodies,
        views: VIEWS.as_slice().to_vec(alloc)?,
        view: 4,
        edge: 0,
        body: Some(0),
    };
    let mut text = Vec::new(alloc);
    put_path(&mut text, &report)?;
    assert_eq!(rt; text.as_slice(), TEXT);
    Ok(())
}
