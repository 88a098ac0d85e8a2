//! The masks of an instruction: a row for each status of a mask.
ghost use Rattle.std.specs.Prelude.{◌≡◌, ◌<◌, ℕ};
ghost use Rattle.solution.specs.Words.{IsMask, AreRows};
ghost use Rattle.solver.specs.Turns.{IsPlace};
ghost use Rattle.solver.specs.Visits.{Asked, Opens};

use crate::task::{Site, Task};
use flow_model::{Rows, has_status, opens};
use solution::{end_of, first_of, shifted, single};

fn ask_pass<R: Rows>(task: &Task, rows: &mut R, site: Site, number: u32, seen: u8, status: u8) -> u8
    requires site { IsPlace task.now.subject.now task.now.lock.0 site.method.0 site.index }
    requires status { status < 8 }
    ensures masks { IsMask (Asked ((R.masks rows.old task.now.subject.now task.now.lock.0).passes site.method.0 site.index number) seen status) result }
    ensures same { R.masks rows.new ≡ R.masks rows.old }
{
    if !has_status(seen, status as usize) {
        return 0;
    }
    rows.pass(
        task.subject,
        task.lock,
        site.method,
        site.index,
        number,
        status,
    )
}

/// With which statuses the instruction leads to its successor of that number.
pub fn ask_passes<R: Rows>(task: &Task, rows: &mut R, site: Site, number: u32, seen: u8) -> u64
    requires { IsPlace task.now.subject.now task.now.lock.0 site.method.0 site.index }
    ensures masks { AreRows (Asked ((R.masks rows.old task.now.subject.now task.now.lock.0).passes site.method.0 site.index number) seen) 8 result }
    ensures same { R.masks rows.new ≡ R.masks rows.old }
{
    let mut word = 0;
    for status in first_of(seen)..end_of(seen) {
        let mask = ask_pass(task, rows, site, number, seen, status);
        word |= shifted(mask, status);
    }
    word
}

fn ask_throw<R: Rows>(task: &Task, rows: &mut R, site: Site, seen: u8, status: u8) -> u8
    requires site { IsPlace task.now.subject.now task.now.lock.0 site.method.0 site.index }
    requires status { status < 8 }
    ensures masks { IsMask (Asked ((R.masks rows.old task.now.subject.now task.now.lock.0).throws site.method.0 site.index) seen status) result }
    ensures same { R.masks rows.new ≡ R.masks rows.old }
{
    if !has_status(seen, status as usize) {
        return 0;
    }
    rows.throws(task.subject, task.lock, site.method, site.index, status)
}

/// With which statuses the instruction itself throws.
pub fn ask_throws<R: Rows>(task: &Task, rows: &mut R, site: Site, seen: u8) -> u64
    requires { IsPlace task.now.subject.now task.now.lock.0 site.method.0 site.index }
    ensures masks { AreRows (Asked ((R.masks rows.old task.now.subject.now task.now.lock.0).throws site.method.0 site.index) seen) 8 result }
    ensures same { R.masks rows.new ≡ R.masks rows.old }
{
    let mut word = 0;
    for status in first_of(seen)..end_of(seen) {
        let mask = ask_throw(task, rows, site, seen, status);
        word |= shifted(mask, status);
    }
    word
}

fn open_one(task: &Task, site: Site, seen: u8, status: u8) -> u8
    requires site { IsPlace task.now.subject.now task.now.lock.0 site.method.0 site.index }
    requires status { status < 8 }
    ensures { IsMask (Opens task.now.subject.now task.now.lock.0 site.method.0 site.index seen status) result }
{
    if !has_status(seen, status as usize) {
        return 0;
    }
    if !opens(task.subject, task.lock, site.method, site.index, status) {
        return 0;
    }
    single(status)
}

/// The statuses of a mask at which the receiver of a call lets it pass.
pub fn open_mask(task: &Task, site: Site, seen: u8) -> u8
    requires { IsPlace task.now.subject.now task.now.lock.0 site.method.0 site.index }
    ensures { IsMask (λ t. (s : ℕ) × Opens task.now.subject.now task.now.lock.0 site.method.0 site.index seen s t) result }
{
    let mut mask = 0;
    for status in first_of(seen)..end_of(seen) {
        mask |= open_one(task, site, seen, status);
    }
    mask
}
