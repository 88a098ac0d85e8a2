//! The least solutions of applications in scope: statuses at idle moments, and violations.
ghost use Rattle.std.specs.Prelude.{◌<◌, ◌↔◌, IsTrue, length};
ghost use Rattle.solution.specs.Facts.{HasPlaces};

use super::{read_app, samples};
use crate::subject_of;
use app_model::Subject;
use flow_model::{StatusRows, Violation};
use ns_base::{ComponentNo, LockNo};
use solution::Solution;
use std::alloc::Global;
use std::test::Fail;
use view_solver::{all_violations, solve, violations};

const RECEIVER: &str = "[[component]]\nkind = \"receiver\"\nclass = \"Lapp/R;\"\n";

const SERVICE: &str = "[[component]]\nkind = \"service\"\nclass = \"Lapp/S;\"\n";

const ACTIVITY: &str = "[[component]]\nkind = \"activity\"\nclass = \"Lapp/A;\"\n";

const WITH_RUNNABLE: &str =
    "[[component]]\nkind = \"activity\"\nclass = \"Lapp/A;\"\n[[component]]\nkind = \"runnable\"\nclass = \"Lapp/A$1;\"\n";

const SERVICES: &str =
    "[[component]]\nkind = \"service\"\nclass = \"Lapp/S;\"\n[[component]]\nkind = \"service\"\nclass = \"Lapp/T;\"\n";

// A violation: component, callback, lock, status.
type Found = (u32, u32, u32, u8);

// What is shown, the file and its list, the statuses of a component by state, and the violations.
struct Row {
    what: &'static str,
    file: &'static [&'static str],
    list: &'static str,
    component: u32,
    views: &'static [u8],
    found: &'static [Found],
}

// Three tables behind functions, since what one function has in full, digits too, is checked at once.
static OF_RECEIVERS: [Row; 5] = [
    Row {
        what: "make, acquire and release",
        file: &samples::RECEIVER,
        list: RECEIVER,
        component: 0,
        views: &[0x03],
        found: &[],
    },
    Row {
        what: "a throw between acquire and release is caught, and the lock stays held",
        file: &samples::THROWN_LEAKS,
        list: RECEIVER,
        component: 0,
        views: &[0x87],
        found: &[(0, 0, 0, 2), (0, 0, 0, 7)],
    },
    Row {
        what: "each throw comes to a release",
        file: &samples::THROWN_RELEASED,
        list: RECEIVER,
        component: 0,
        views: &[0x03],
        found: &[],
    },
    Row {
        what: "methods that call each other while they hold",
        file: &samples::MUTUAL_HOLDS,
        list: RECEIVER,
        component: 0,
        views: &[],
        found: &[(0, 0, 0, 2), (0, 0, 0, 3), (0, 0, 0, 4), (0, 0, 0, 7)],
    },
    Row {
        what: "and that release before they call",
        file: &samples::MUTUAL_FREES,
        list: RECEIVER,
        component: 0,
        views: &[],
        found: &[],
    },
];

static OF_SERVICES: [Row; 3] = [
    Row {
        what: "an uncounted lock of a service",
        file: &samples::UNCOUNTED_SERVICE,
        list: SERVICE,
        component: 0,
        views: &[0x21, 0x60],
        found: &[],
    },
    Row {
        what: "a counted one, released once",
        file: &samples::COUNTED_SERVICE,
        list: SERVICE,
        component: 0,
        views: &[],
        found: &[(0, 6, 0, 2), (0, 6, 0, 3), (0, 6, 0, 4), (0, 6, 0, 7)],
    },
    Row {
        what: "another service holds while this one ends",
        file: &samples::TWO_SERVICES,
        list: SERVICES,
        component: 0,
        views: &[],
        found: &[(0, 6, 0, 2)],
    },
];

static OF_ACTIVITIES: [Row; 3] = [
    Row {
        what: "a second resume, whose release throws",
        file: &samples::RENEWING_ACTIVITY,
        list: ACTIVITY,
        component: 0,
        views: &[0x03, 0x03, 0x03, 0x04, 0x02, 0x03, 0x03],
        found: &[],
    },
    Row {
        what: "an inner class releases through a getter",
        file: &samples::INNER_CLASS,
        list: WITH_RUNNABLE,
        component: 0,
        views: &[0x03, 0x02, 0x02, 0x06, 0x02, 0x02, 0x02],
        found: &[],
    },
    Row {
        what: "and runs at any idle moment",
        file: &samples::INNER_CLASS,
        list: WITH_RUNNABLE,
        component: 1,
        views: &[0x07],
        found: &[],
    },
];

// Where both locks of a receiver stay held.
static BY_LOCK: [Found; 4] = [(0, 0, 0, 2), (0, 0, 0, 7), (0, 0, 1, 6), (0, 0, 1, 7)];

fn of_receivers() -> &'static [Row] {
    &OF_RECEIVERS
}

fn of_services() -> &'static [Row] {
    &OF_SERVICES
}

fn of_activities() -> &'static [Row] {
    &OF_ACTIVITIES
}

fn subject_by(alloc: Global, digits: &[&str], list: &str) -> Result<Subject, Fail> {
    let app = read_app(alloc, digits)?;
    match subject_of(alloc, app, list.as_bytes()) {
        Ok(subject) => Ok(subject),
        Err(_) => Err("an application in scope".into()),
    }
}

fn is_found(violation: &Violation, found: &Found) -> bool {
    violation.component == found.0
        && violation.callback == found.1
        && violation.lock == found.2
        && violation.status == found.3
}

// Whether these are the violations, in this order.
fn are_found(violations: &[Violation], found: &[Found]) -> bool {
    violations.len() == found.len()
        && violations
            .iter()
            .zip(found)
            .all(|(violation, found)| is_found(violation, found))
}

fn has_views(subject: &Subject, solution: &Solution, component: u32, views: &[u8]) -> bool
    requires places { HasPlaces subject.now solution.now }
    requires component { component < length subject.now.list }
    requires states { length views.now < 8 }
{
    for state in 0..views.len() {
        if solution.view(ComponentNo(component), state as u8) != views[state] {
            return false;
        }
    }
    true
}

fn is_listed(subject: &Subject, component: u32) -> bool
    ensures { IsTrue result ↔ component < length subject.now.list }
{
    subject.told();
    component < subject.list.rows.len() as u32
}

// Whether the one lock of a file has these statuses and violations.
fn is_solved(alloc: Global, row: &Row) -> Result<bool, Fail> {
    let subject = subject_by(alloc, row.file, row.list)?;
    if subject.lock_count() != 1 || !is_listed(&subject, row.component) || row.views.len() > 7 {
        return Err("one lock, and a listed component".into());
    }
    let mut rows = StatusRows::new();
    let Ok(solution) = solve(alloc, &subject, LockNo(0), &mut rows) else {
        return Err("there is memory".into());
    };
    let Ok(found) = violations(alloc, &subject, LockNo(0), &solution) else {
        return Err("there is memory".into());
    };
    Ok(are_found(&found, row.found) && has_views(&subject, &solution, row.component, row.views))
}

// Whether an application under its list has these violations, of all its locks.
fn finds(alloc: Global, digits: &[&str], list: &str, found: &[Found]) -> Result<bool, Fail> {
    let subject = subject_by(alloc, digits, list)?;
    match all_violations(alloc, &subject) {
        Ok(all) => Ok(are_found(&all, found)),
        Err(_) => Err("there is memory".into()),
    }
}

#[test]
fn statuses_and_violations_are_those_of_the_rules(rt: HostRuntime) -> Result<(), Fail> {
    for rows in [of_receivers(), of_services(), of_activities()] {
        for row in rows.iter() {
            assert!(rt; is_solved(rt.alloc(), row)?, "{}", row.what);
        }
    }
    Ok(())
}

#[test]
fn violations_stand_by_component_callback_lock_and_status(rt: HostRuntime) -> Result<(), Fail> {
    for rows in [of_receivers(), of_services(), of_activities()] {
        for row in rows.iter() {
            assert!(rt;
                finds(rt.alloc(), row.file, row.list, row.found)?,
                "{}",
                row.what
            );
        }
    }
    assert!(rt; finds(rt.alloc(), &samples::TWO_LOCKS, RECEIVER, &BY_LOCK)?);
    Ok(())
}
