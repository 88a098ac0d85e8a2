//! Broken rules in order of rule, method and pc.
ghost use Rattle.std.specs.Prelude.{◌≡◌, ◌≤◌, length};
ghost use Rattle.scope_check.specs.Founds as spec;
ghost use Rattle.scope_check.specs.Founds.{IsLowest, Keeps};

use ns_base::MethodNo;

/// A rule that is broken, by its number, with the place.
#[derive(Clone, Copy)]
pub(crate) struct Found {
    pub rule: u8,
    pub method: MethodNo,
    pub pc: u32,
}

// Whether one comes before another, or is it.
fn comes_before(a: Found, b: Found) -> bool
    ensures { result ≡ spec.comes_before a b }
{
    if a.rule != b.rule {
        return a.rule < b.rule;
    }
    if a.method.0 != b.method.0 {
        return a.method.0 < b.method.0;
    }
    a.pc <= b.pc
}

// The first of those kept and found.
fn earlier(kept: Option<Found>, found: Found) -> Found
    ensures { result ≡ spec.earlier kept found }
{
    match kept {
        Some(first) if comes_before(first, found) => first,
        _ => found,
    }
}

// The number of the first test that is passed.
fn lowest(tests: &[bool]) -> Option<u8>
    requires { length tests.now ≤ 256 }
    ensures { IsLowest tests.now result }
{
    for i in 0..tests.len() {
        if tests[i] {
            return Some(i as u8);
        }
    }
    None
}

/// What is kept once the rules were tested at a place: `tests` has the test of each rule by number.
pub(crate) fn keep(kept: Option<Found>, tests: &[bool], method: MethodNo, pc: u32) -> Option<Found>
    requires { length tests.now ≤ 256 }
    ensures { Keeps tests.now method.0 pc kept result }
{
    match lowest(tests) {
        Some(rule) => Some(earlier(kept, Found { rule, method, pc })),
        None => kept,
    }
}
