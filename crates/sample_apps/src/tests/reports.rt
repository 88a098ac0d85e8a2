//! Reports of the violations of applications in scope: each is valid, their heads stand in order, and their text is read back.
use super::{read_app, samples};
use crate::subject_of;
use app_model::Subject;
use derivation::derive;
use ns_base::LockNo;
use path_reader::read_reports;
use path_text::put_path;
use report_path::{Report, check_report};
use report_text::{heads_text, reports_text};
use std::alloc::Global;
use std::test::Fail;
use view_solver::solve_lock;

pub const RECEIVER: &str = "[[component]]\nkind = \"receiver\"\nclass = \"Lapp/R;\"\n";

const SERVICE: &str = "[[component]]\nkind = \"service\"\nclass = \"Lapp/S;\"\n";

const SERVICES: &str =
    "[[component]]\nkind = \"service\"\nclass = \"Lapp/S;\"\n[[component]]\nkind = \"service\"\nclass = \"Lapp/T;\"\n";

const THROWN: &str = "report 1 of 2: Lapp/R;->wl is C1 after Lapp/R;->onReceive
body 0 0 A ret C1 0/A 2/A 5/A 6/A 8/A 9/A 11/A 14/A 15/A 17/C0 19/C0 22/C1 31/C1 32/C1
view 0 0 0 A start
exit 0 0 C1 0 0 0
report 2 of 2: Lapp/R;->wl is L after Lapp/R;->onReceive
body 0 0 A ret C1 0/A 2/A 5/A 6/A 8/A 9/A 11/A 14/A 15/A 17/C0 19/C0 22/C1 31/C1 32/C1
body 1 0 C1 ret L 0/C1 2/C1 5/C1 6/C1 8/C1 9/C1 11/C1 14/C1 15/C1 17/L 19/L 22/L 31/L 32/L
view 0 0 0 A start
view 1 0 0 C1 own 0 0 0
exit 0 0 L 1 1 0
";

const BETWEEN: &str = "report 1 of 1: Lapp/W;->wl is C1 after Lapp/S;->onDestroy
body 0 1 A ret C1 0/A 2/A 4/A 6/A 9/A 10/A 12/A 13/A 15/A 18/A 19/A 21/C0 23/C0 26/C1
view 0 0 0 A start
view 1 1 0 A start
view 2 0 1 A outside 0 0
view 3 0 1 C1 other 2 1 0 0
exit 0 6 C1 3 - 0
";

const HOLDING: &str = "report 1 of 4: Lapp/R;->wl is C1 after Lapp/R;->onReceive
report 2 of 4: Lapp/R;->wl is C2 after Lapp/R;->onReceive
report 3 of 4: Lapp/R;->wl is CT after Lapp/R;->onReceive
report 4 of 4: Lapp/R;->wl is L after Lapp/R;->onReceive
";

const COUNTED: &str = "report 1 of 4: Lapp/S;->wl is C1 after Lapp/S;->onDestroy
report 2 of 4: Lapp/S;->wl is C2 after Lapp/S;->onDestroy
report 3 of 4: Lapp/S;->wl is CT after Lapp/S;->onDestroy
report 4 of 4: Lapp/S;->wl is L after Lapp/S;->onDestroy
";

// What is shown, the file, its list, and how many steps the bodies of each report have: no way has a detour.
struct Row {
    what: &'static str,
    file: &'static [&'static str],
    list: &'static str,
    heads: &'static str,
    most: usize,
}

static ROWS: [Row; 2] = [
    Row {
        what: "methods that call each other while they hold",
        file: &samples::MUTUAL_HOLDS,
        list: RECEIVER,
        heads: HOLDING,
        most: 200,
    },
    Row {
        what: "a counted lock of a service, released once",
        file: &samples::COUNTED_SERVICE,
        list: SERVICE,
        heads: COUNTED,
        most: 200,
    },
];

pub fn subject_by(alloc: Global, digits: &[&str], list: &str) -> Result<Subject, Fail> {
    let app = read_app(alloc, digits)?;
    match subject_of(alloc, app, list.as_bytes()) {
        Ok(subject) => Ok(subject),
        Err(_) => Err("an application in scope".into()),
    }
}

// The reports of the first lock field.
pub fn reports_of(alloc: Global, subject: &Subject) -> Result<Vec<Report>, Fail> {
    subject.told();
    if subject.lock_count() == 0 {
        return Err("a lock".into());
    }
    let Ok(solution) = solve_lock(alloc, subject, LockNo(0)) else {
        return Err("there is memory".into());
    };
    match derive(alloc, subject, LockNo(0), &solution) {
        Ok(reports) => Ok(reports),
        Err(_) => Err("there is memory".into()),
    }
}

/// The number of the first wrong piece of a report: bodies are counted first, then views, then the exit.
pub fn wrong_piece(subject: &Subject, report: &Report) -> Result<Option<u32>, Fail> {
    let most = 1_000_000;
    if report.bodies.len() > most || report.views.len() > most {
        return Err("a small report".into());
    }
    match check_report(subject, report) {
        Ok(()) => Ok(None),
        Err(number) => Ok(Some(number)),
    }
}

fn are_valid(subject: &Subject, reports: &[Report]) -> Result<bool, Fail> {
    for report in reports {
        if wrong_piece(subject, report)?.is_some() {
            return Ok(false);
        }
    }
    Ok(true)
}

fn step_count(report: &Report) -> usize {
    let mut count = 0usize;
    for body in report.bodies.iter() {
        count = count.saturating_add(body.steps.len());
    }
    count
}

fn path_of(alloc: Global, report: &Report) -> Result<Vec<u8>, Fail> {
    let mut text = Vec::new(alloc);
    put_path(&mut text, report)?;
    Ok(text)
}

// Whether the text is read back as these reports, with their edges as their callbacks.
fn is_read_back(alloc: Global, text: &[u8], reports: &[Report]) -> Result<bool, Fail> {
    let Ok(read) = read_reports(alloc, text) else {
        return Ok(false);
    };
    if read.len() != reports.len() {
        return Ok(false);
    }
    for (one, other) in read.iter().zip(reports) {
        if one.callback != other.edge || path_of(alloc, one)? != path_of(alloc, other)? {
            return Ok(false);
        }
    }
    Ok(true)
}

fn text_of(alloc: Global, subject: &Subject, reports: &[Report]) -> Result<Vec<u8>, Fail> {
    match reports_text(alloc, subject, reports) {
        Ok(text) => Ok(text),
        Err(_) => Err("there is memory".into()),
    }
}

// Whether the reports of a file are written so, each is valid, and all are read back.
fn is_written(alloc: Global, digits: &[&str], list: &str, expected: &str) -> Result<bool, Fail> {
    let subject = subject_by(alloc, digits, list)?;
    let reports = reports_of(alloc, &subject)?;
    let text = text_of(alloc, &subject, &reports)?;
    Ok(
        text.as_slice() == expected.as_bytes()
            && are_valid(&subject, &reports)?
            && is_read_back(alloc, &text, &reports)?,
    )
}

// Whether the reports of a file have these heads, each is valid and no longer than so many steps, and all are read back.
fn is_reported(alloc: Global, row: &Row) -> Result<bool, Fail> {
    let subject = subject_by(alloc, row.file, row.list)?;
    let reports = reports_of(alloc, &subject)?;
    let Ok(heads) = heads_text(alloc, &subject, &reports) else {
        return Err("there is memory".into());
    };
    let text = text_of(alloc, &subject, &reports)?;
    Ok(
        heads.as_slice() == row.heads.as_bytes()
            && are_valid(&subject, &reports)?
            && reports.iter().all(|report| step_count(report) <= row.most)
            && is_read_back(alloc, &text, &reports)?,
    )
}

#[test]
fn a_path_leads_to_where_the_lock_stays_held(rt: HostRuntime) -> Result<(), Fail> {
    let alloc = rt.alloc();
    assert!(rt; is_written(alloc, &samples::THROWN_LEAKS, RECEIVER, THROWN)?);
    assert!(rt; is_written(alloc, &samples::TWO_SERVICES, SERVICES, BETWEEN)?);
    Ok(())
}

#[test]
fn each_violation_has_a_valid_report(rt: HostRuntime) -> Result<(), Fail> {
    for row in ROWS.iter() {
        assert!(rt; is_reported(rt.alloc(), row)?, "{}", row.what);
    }
    Ok(())
}
