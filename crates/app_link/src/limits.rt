//! What is limited over the whole application.
ghost use Rattle.std.specs.Prelude.{◌≡◌, ◌≤◌, ◌<◌, ◌*◌, ◌^◌, length};
ghost use Rattle.app_model.specs.Words.{code_len};
ghost use Rattle.app_model.specs.Sites.{is_make, sites_in, sites_below};
ghost use Rattle.app_link.specs.LinkFaults.{above, units_fault, sites_fault};

use crate::link_fault::LinkFault;
use app_model::{App, LockUse};
use dex_file::FileParts;
use ns_base::{Counted, MethodNo, limit};

/// The fault of so many, where they are more than the limit.
pub fn above(which: Counted, count: u128) -> Option<LinkFault>
    ensures { result ≡ above which count }
{
    if count > u128::from(limit(which)) {
        Some(LinkFault::Limit(which))
    } else {
        None
    }
}

/// The fault of too many code units.
pub fn find_units_fault(files: &[FileParts]) -> Option<LinkFault>
    requires { length files.now ≤ 16 }
    ensures { result ≡ units_fault files.now }
{
    let mut units: u128 = 0;
    for n in 0..files.len() {
        let file = &files[n];
        units += u128::from(file.units);
    }
    above(Counted::Units, units)
}

fn is_make(lock_use: LockUse) -> bool
    ensures { result ≡ is_make lock_use }
{
    match lock_use {
        LockUse::Make => true,
        _ => false,
    }
}

fn sites_in(app: &App, method: u32) -> u32
    requires { method < length app.now.methods }
    ensures { result ≡ sites_in app.now method (code_len app.now method) }
{
    let mut sites = 0;
    for i in 0..app.code_len(MethodNo(method)) {
        if is_make(app.lock_use(MethodNo(method), i)) {
            sites += 1;
        }
    }
    sites
}

/// The fault of too many calls that make a lock.
pub fn find_sites_fault(app: &App) -> Option<LinkFault>
    ensures { result ≡ sites_fault app.now }
{
    let mut sites: u64 = 0;
    for m in 0..app.method_count() {
        sites += u64::from(sites_in(app, m));
    }
    above(Counted::Sites, u128::from(sites))
}
