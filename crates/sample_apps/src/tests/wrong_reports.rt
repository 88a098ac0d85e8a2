//! What is wrong of a report, over changes of one that is right: of the receiver that leaks where an outside call throws. Its one
//! body is piece 0, its view piece 1, its last step piece 2.
use super::reports::{RECEIVER, reports_of, subject_by, wrong_piece};
use super::samples;
use app_model::Subject;
use report_path::{BodyPath, By, Report, Step, ViewStep};
use std::alloc::Global;
use std::test::Fail;

// Another step in the place of that one: pc, status, and the body that it cites.
static STEPS: [(&str, usize, (u32, u8, Option<u32>)); 9] = [
    ("a body that cites itself", 11, (22, 2, Some(0))),
    ("one that cites a later body", 11, (22, 2, Some(1))),
    ("a step at the next place", 11, (23, 2, None)),
    ("one at another instruction", 11, (25, 2, None)),
    ("one at another status", 11, (22, 3, None)),
    ("a status that is none", 11, (22, 8, None)),
    ("a way that begins behind the entry", 0, (2, 0, None)),
    ("one that begins at another status", 0, (0, 1, None)),
    ("a last step at another status", 13, (32, 1, None)),
];

// Another method, entry status, end or exit status of the body.
static BODIES: [(&str, (u32, u8, bool, u8)); 6] = [
    ("the body of another method", (1, 0, false, 2)),
    ("that of the last number", (4_294_967_295, 0, false, 2)),
    ("a wrong entry", (0, 1, false, 2)),
    ("a return that is called a throw", (0, 0, true, 2)),
    ("another status at the end", (0, 0, false, 3)),
    ("one that is none", (0, 0, false, 8)),
];

// Another view: component, state, status and way.
static VIEWS: [(&str, (u32, u8, u8, By)); 7] = [
    ("a component that is not there", (1, 0, 0, By::Start)),
    ("a start in another state", (0, 1, 0, By::Start)),
    ("a start at another status", (0, 0, 1, By::Start)),
    (
        "a view from itself",
        (0, 0, 0, By::Outside { view: 0, edge: 0 }),
    ),
    (
        "one by an own body from a later view",
        (
            0,
            0,
            2,
            By::Own {
                view: 1,
                edge: 0,
                body: 0,
            },
        ),
    ),
    (
        "one by an edge that is not there",
        (0, 0, 0, By::Outside { view: 0, edge: 1 }),
    ),
    (
        "one beside itself",
        (
            0,
            0,
            0,
            By::Other {
                view: 0,
                mover: 0,
                edge: 0,
                body: Some(0),
            },
        ),
    ),
];

// Another component, callback, status, view, edge or body of the last step.
type Last = (u32, u32, u8, u32, u32, Option<u32>);

static LASTS: [(&str, Last); 8] = [
    ("another component", (1, 0, 2, 0, 0, Some(0))),
    ("another callback", (0, 1, 2, 0, 0, Some(0))),
    ("another status", (0, 0, 3, 0, 0, Some(0))),
    ("a status that is not held", (0, 0, 1, 0, 0, Some(0))),
    ("a view that is not there", (0, 0, 2, 1, 0, Some(0))),
    ("an edge that is not there", (0, 0, 2, 0, 1, Some(0))),
    ("a body that is not there", (0, 0, 2, 0, 0, Some(1))),
    ("a callback found outside", (0, 0, 2, 0, 0, None)),
];

fn subject(alloc: Global) -> Result<Subject, Fail> {
    subject_by(alloc, &samples::THROWN_LEAKS, RECEIVER)
}

// The first of its reports.
fn right(alloc: Global, subject: &Subject) -> Result<Report, Fail> {
    let reports = reports_of(alloc, subject)?;
    match reports.into_iter().next() {
        Some(report) => Ok(report),
        None => Err("a report".into()),
    }
}

fn put_step(report: &mut Report, number: usize, step: (u32, u8, Option<u32>)) {
    if let Some(body) = report.bodies.first_mut() {
        if let Some(old) = body.steps.get_mut(number) {
            *old = Step {
                pc: step.0,
                status: step.1,
                cites: step.2,
            };
        }
    }
}

fn put_body(body: &mut BodyPath, fields: (u32, u8, bool, u8)) {
    body.method = fields.0;
    body.entry = fields.1;
    body.thrown = fields.2;
    body.exit = fields.3;
}

fn put_last(report: &mut Report, last: Last) {
    report.component = last.0;
    report.callback = last.1;
    report.status = last.2;
    report.view = last.3;
    report.edge = last.4;
    report.body = last.5;
}

#[test]
fn a_wrong_step_makes_its_body_wrong(rt: HostRuntime) -> Result<(), Fail> {
    let alloc = rt.alloc();
    let subject = subject(alloc)?;
    assert_eq!(rt; wrong_piece(&subject, &right(alloc, &subject)?)?, None);
    for (what, number, step) in STEPS.iter() {
        let mut report = right(alloc, &subject)?;
        put_step(&mut report, *number, *step);
        assert_eq!(rt; wrong_piece(&subject, &report)?, Some(0), "{what}");
    }
    Ok(())
}

#[test]
fn a_wrong_body_is_named(rt: HostRuntime) -> Result<(), Fail> {
    let alloc = rt.alloc();
    let subject = subject(alloc)?;
    for (what, fields) in BODIES.iter() {
        let mut report = right(alloc, &subject)?;
        if let Some(body) = report.bodies.first_mut() {
            put_body(body, *fields);
        }
        assert_eq!(rt; wrong_piece(&subject, &report)?, Some(0), "{what}");
    }
    let mut report = right(alloc, &subject)?;
    report.lock = 1;
    assert_eq!(rt;
        wrong_piece(&subject, &report)?,
        Some(0),
        "another lock field"
    );
    let mut report = right(alloc, &subject)?;
    if let Some(body) = report.bodies.first_mut() {
        body.steps.clear();
    }
    assert_eq!(rt; wrong_piece(&subject, &report)?, Some(0), "no step");
    Ok(())
}

#[test]
fn a_wrong_view_and_a_wrong_last_step_are_named(rt: HostRuntime) -> Result<(), Fail> {
    let alloc = rt.alloc();
    let subject = subject(alloc)?;
    for (what, view) in VIEWS.iter() {
        let mut report = right(alloc, &subject)?;
        if let Some(old) = report.views.first_mut() {
            *old = ViewStep {
                component: view.0,
                state: view.1,
                status: view.2,
                by: view.3,
            };
        }
        assert_eq!(rt; wrong_piece(&subject, &report)?, Some(1), "{what}");
    }
    for (what, last) in LASTS.iter() {
        let mut report = right(alloc, &subject)?;
        put_last(&mut report, *last);
        assert_eq!(rt; wrong_piece(&subject, &report)?, Some(2), "{what}");
    }
    let mut report = right(alloc, &subject)?;
    report.bodies.clear();
    assert_eq!(rt; wrong_piece(&subject, &report)?, Some(1), "no body");
    Ok(())
}
