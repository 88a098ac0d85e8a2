//! The first place at which a rule leads out of the facts of a lock field.
ghost use Rattle.std.specs.Prelude.{◌≡◌, ◌<◌, ◌*◌, ℕ, true, false, length};
ghost use Rattle.cert_check.specs.Firsts.{is_inside, place_count, IsBrokenAt, IsFirstLast, IsFirstWith, IsFirst};
ghost use Rattle.cert_facts.specs.Moves.{AreMoves};
ghost use Rattle.cert_facts.specs.Rows.{Rises, body_rank};

use crate::between::is_out_between;
use crate::inside::is_out;
use crate::verdict::Rule;
use cert_facts::{Entered, Task, note_all};
use ns_base::{ComponentNo, MethodNo};

/// The numbers of a place.
#[derive(Clone, Copy)]
pub struct Found {
    pub a: u32,
    pub b: u32,
    pub c: u32,
}

fn is_inside(rule: Rule) -> bool
    ensures { result ≡ is_inside rule }
{
    match rule {
        Rule::V1 | Rule::V2 | Rule::V3 | Rule::V4 | Rule::V5 => false,
        Rule::I1 | Rule::I2 | Rule::I3 | Rule::C1 | Rule::C2 | Rule::C3 => true,
    }
}

fn first_pc(rule: Rule, entered: &Entered) -> Option<u32>
    requires { is_inside rule ≡ true }
    ensures { IsFirstLast rule entered.now.case entered.now.method entered.now.status result }
{
    entered.told();
    for index in 0..entered.code_len() {
        if is_out(rule, entered, index) {
            return Some(entered.pc(index));
        }
    }
    None
}

// How many edges a component has, or how many components it watches.
fn number_count(rule: Rule, task: &Task, component: ComponentNo) -> u32
    requires { component.0 < length task.now.subject.list }
    ensures { (b c : ℕ) → IsBrokenAt rule task.now component.0 b c → is_inside rule ≡ false → c < result }
{
    match rule {
        Rule::V1 => 1,
        Rule::V2 | Rule::V3 | Rule::V4 => task.edge_count(component),
        Rule::V5 => task.component_count(),
        Rule::I1 | Rule::I2 | Rule::I3 | Rule::C1 | Rule::C2 | Rule::C3 => 0,
    }
}

fn first_number(
    rule: Rule,
    task: &Task,
    moves: &[u8],
    component: ComponentNo,
    state: u8,
) -> Option<u32>
    requires rule { is_inside rule ≡ false }
    requires moves { AreMoves task.now (8 * length task.now.subject.list) moves.now }
    requires component { component.0 < length task.now.subject.list }
    ensures { IsFirstLast rule task.now component.0 state result }
{
    for number in 0..number_count(rule, task, component) {
        if is_out_between(rule, task, moves, component, state, number) {
            return Some(number);
        }
    }
    None
}

fn first_last(rule: Rule, task: &Task, moves: &[u8], a: u32, b: u8) -> Option<u32>
    requires moves { AreMoves task.now (8 * length task.now.subject.list) moves.now }
    requires a { a < place_count rule task.now }
    requires b { b < 8 }
    ensures { IsFirstLast rule task.now a b result }
{
    task.told();
    if !is_inside(rule) {
        return first_number(rule, task, moves, ComponentNo(a), b);
    }
    if !task.subject().reaches(MethodNo(a)) {
        return None;
    }
    first_pc(rule, &Entered::new(task, MethodNo(a), b))
}

fn first_with(rule: Rule, task: &Task, moves: &[u8], a: u32) -> Option<Found>
    requires moves { AreMoves task.now (8 * length task.now.subject.list) moves.now }
    requires a { a < place_count rule task.now }
    ensures { IsFirstWith rule task.now a result }
{
    task.told();
    for b in 0..8u8 {
        if let Some(c) = first_last(rule, task, moves, a, b) {
            return Some(Found { a, b: b as u32, c });
        }
    }
    None
}

// How many methods there are, or how many components.
fn place_count(rule: Rule, task: &Task) -> u32
    ensures { result ≡ place_count rule task.now }
{
    if is_inside(rule) {
        task.method_count()
    } else {
        task.component_count()
    }
}

// Place by place, whatever the order of the rows.
fn first_place(rule: Rule, task: &Task, moves: &[u8]) -> Option<Found>
    requires { AreMoves task.now (8 * length task.now.subject.list) moves.now }
    ensures { IsFirst rule task.now result }
{
    task.told();
    for a in 0..place_count(rule, task) {
        let found = first_with(rule, task, moves, a);
        if found.is_some() {
            return found;
        }
    }
    None
}

// By the rows of methods, where they rise.
fn first_row(rule: Rule, task: &Task) -> Option<Found>
    requires rule { is_inside rule ≡ true }
    requires rising { Rises body_rank task.now.part.bodies }
    ensures { IsFirst rule task.now result }
{
    task.told();
    let rows = task.rows();
    for k in 0..rows.len() {
        let row = &rows[k];
        let (method, status) = (row.method, row.entry);
        if let Some(c) = first_pc(rule, &Entered::new(&*task, MethodNo(method), status)) {
            return Some(Found {
                a: method,
                b: status as u32,
                c,
            });
        }
    }
    None
}

/// The first place at which the rule leads out.
pub fn first_of(rule: Rule, task: &Task, moves: &[u8]) -> Option<Found>
    requires { AreMoves task.now (8 * length task.now.subject.list) moves.now }
    ensures { IsFirst rule task.now result }
{
    if is_inside(rule) && task.rises() {
        first_row(rule, task)
    } else {
        first_place(rule, task, moves)
    }
}
