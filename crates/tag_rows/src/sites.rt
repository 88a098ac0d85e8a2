//! The calls that make a lock, numbered in order of method and instruction.
ghost use Rattle.std.specs.Prelude.{◌≡◌, ◌<◌, ◌≤◌, IfOk, length, true};
ghost use Rattle.app_model.specs.LockUse.{lock_use_at};
ghost use Rattle.app_model.specs.Sites.{is_make, site_at, sites_below};
ghost use Rattle.app_model.specs.Words.{code_len};
ghost use Rattle.app_model.specs.Parts.{AppParts};
ghost use Rattle.tag_rows.specs.Changes.{makes_lock};
ghost use Rattle.tag_rows.specs.Sites.{AreSites, AreSitesBefore};

use act_model::Act;
use app_model::{App, LockUse};
use ns_base::MethodNo;
use std::alloc::{AllocError, Global};

/// A call that makes a lock.
#[derive(Clone, Copy, PartialEq)]
pub struct Site {
    pub method: MethodNo,
    pub index: u32,
}

/// Whether a call makes a lock.
pub fn is_make(usage: LockUse) -> bool
    ensures { result ≡ is_make usage }
{
    matches!(usage, LockUse::Make)
}

/// Whether an act makes a lock.
pub fn makes_lock(act: &Act) -> bool
    ensures { result ≡ makes_lock act.now }
{
    match *act {
        Act::Call { usage, .. } => is_make(usage),
        _ => false,
    }
}

// The calls of a method.
fn add_sites(app: &App, method: MethodNo, sites: &mut Vec<Site>) -> Result<(), AllocError>
    requires method { method.0 < length app.now.methods }
    requires before { AreSitesBefore app.now method.0 0 sites.old.items }
    ensures { IfOk result (λ done. AreSitesBefore app.now method.0 (code_len app.now method.0) sites.new.items) }
{
    for index in 0..app.code_len(method) {
        if is_make(app.lock_use(method, index)) {
            sites.push(Site { method, index })?;
        }
    }
    Ok(())
}

/// All calls that make a lock.
pub fn find_sites(alloc: Global, app: &App) -> Result<Vec<Site>, AllocError>
    ensures sites { IfOk result (λ sites. AreSites app.now sites.items) }
    ensures len { IfOk result (λ sites. length sites.items ≡ sites_below app.now (length app.now.methods)) }
{
    let mut sites = Vec::new(alloc);
    for method in 0..app.method_count() {
        add_sites(app, MethodNo(method), &mut sites)?;
    }
    Ok(sites)
}

/// The number of a site.
pub fn site_of(sites: &[Site], method: MethodNo, index: u32) -> u32
    requires { length sites.now ≤ 64 }
    ensures { (app : AppParts) → AreSites app sites.now → method.0 < length app.methods → index < code_len app method.0 → is_make (lock_use_at app method.0 index) ≡ true
        → result ≡ site_at app method.0 index }
{
    for i in 0..sites.len() {
        if sites[i].method.0 == method.0 && sites[i].index == index {
            return i as u32;
        }
    }
    0
}
