//! The rules inside callbacks, from one instruction: whether one leads out of the facts.
ghost use Rattle.std.specs.Prelude.{◌≡◌, ◌↔◌, ◌<◌, true, IsTrue};
ghost use Rattle.app_model.specs.Masks.{in_mask};
ghost use Rattle.app_model.specs.Subject.{IsEnterable};
ghost use Rattle.app_model.specs.Words.{code_len};
ghost use Rattle.cert_check.specs.Tests.{Misses, PassesOut, ReturnsOut, HandlesOut, LeavesOut, ThrowsOut, ComesBackOut, CallOut, CallsOut, StepsOut, IsOut};

use crate::verdict::Rule;
use cert_facts::{Entered, Site};
use flow_model::has_status;
use ns_base::MethodNo;

/// Whether a mask has a status that another lacks.
pub fn misses(led: u8, there: u8) -> bool
    ensures { IsTrue result ↔ Misses (in_mask led) (in_mask there) }
{
    led & !there != 0
}

fn passes_out(site: &Site, status: u8) -> bool
    requires { status < 8 }
    ensures { IsTrue result ↔ PassesOut site.now status }
{
    site.told();
    for number in 0..u32::MAX {
        let Some(to) = site.successor(number) else {
            return false;
        };
        if misses(site.pass(number, status), site.entered().before(to)) {
            return true;
        }
    }
    false
}

fn returns_out(site: &Site, status: u8) -> bool
    requires { status < 8 }
    ensures { IsTrue result ↔ ReturnsOut site.now status }
{
    site.returns() && !has_status(site.entered().returned(), status as usize)
}

fn handles_out(site: &Site, thrown: u8) -> bool
    ensures { IsTrue result ↔ HandlesOut site.now (in_mask thrown) }
{
    site.told();
    for number in 0..u32::MAX {
        let Some(to) = site.handler(number) else {
            return false;
        };
        if misses(thrown, site.entered().before(to)) {
            return true;
        }
    }
    false
}

fn leaves_out(site: &Site, thrown: u8) -> bool
    ensures { IsTrue result ↔ LeavesOut site.now (in_mask thrown) }
{
    site.leaves() && misses(thrown, site.entered().thrown())
}

fn throws_out(site: &Site, thrown: u8) -> bool
    ensures { IsTrue result ↔ ThrowsOut site.now (in_mask thrown) }
{
    thrown != 0 && (handles_out(site, thrown) || leaves_out(site, thrown))
}

fn comes_back_out(site: &Site, called: &Entered, status: u8) -> bool
    requires { called.now ≡ record { case = site.now.entry.case; method = called.now.method; status = status } }
    ensures { IsTrue result ↔ ComesBackOut site.now called.now.method status }
{
    match site.successor(0) {
        Some(to) => misses(called.returned(), site.entered().before(to)),
        None => false,
    }
}

// By a call of one method.
fn call_out(rule: Rule, site: &Site, callee: MethodNo, status: u8) -> bool
    requires status { status < 8 }
    requires callee { IsEnterable site.now.entry.case.subject callee.0 }
    ensures { IsTrue result ↔ CallOut rule site.now callee.0 status }
{
    let called = Entered::new(site.entered().task(), callee, status);
    match rule {
        Rule::C1 => !has_status(called.before(0), status as usize),
        Rule::C2 => comes_back_out(site, &called, status),
        Rule::C3 => throws_out(site, called.thrown()),
        _ => false,
    }
}

fn calls_out(rule: Rule, site: &Site, status: u8) -> bool
    requires { status < 8 }
    ensures { IsTrue result ↔ CallsOut rule site.now status }
{
    let callees = site.callees();
    for k in 0..callees.len() {
        if call_out(rule, site, callees[k], status) {
            return true;
        }
    }
    false
}

// From one status before the instruction. This alone looks at the rule.
fn steps_out(rule: Rule, site: &Site, status: u8) -> bool
    requires { status < 8 }
    ensures { IsTrue result ↔ StepsOut rule site.now status }
{
    match rule {
        Rule::I1 => (!site.is_own() && passes_out(site, status)) || returns_out(site, status),
        Rule::I2 => site.is_own() && passes_out(site, status),
        Rule::I3 => throws_out(site, site.throws(status)),
        Rule::C1 | Rule::C2 | Rule::C3 => site.opens(status) && calls_out(rule, site, status),
        _ => false,
    }
}

fn seen_out(rule: Rule, site: &Site, seen: u8, status: u8) -> bool
    requires { status < 8 }
    ensures { IsTrue result ↔ ((in_mask seen status ≡ true) × StepsOut rule site.now status) }
{
    has_status(seen, status as usize) && steps_out(rule, site, status)
}

/// Whether the rule leads out from an instruction.
pub fn is_out(rule: Rule, entered: &Entered, index: u32) -> bool
    requires { index < code_len entered.now.case.subject.app entered.now.method }
    ensures { IsTrue result ↔ IsOut rule (record { entry = entered.now; index = index }) }
{
    let seen = entered.before(index);
    if seen == 0 {
        return false;
    }
    let site = Site::new(entered, index);
    for status in 0..8u8 {
        if seen_out(rule, &site, seen, status) {
            return true;
        }
    }
    false
}
