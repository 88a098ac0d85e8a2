//! The facts that hold of one lock field.
ghost use Rattle.std.specs.Prelude.{◌≡◌, ◌<◌, ◌∷◌, [], ℕ, false, length, replicate, IfOk, IsOk};
ghost use Rattle.app_model.specs.Facts.{Fact, View, At, Ret, Exc};
ghost use Rattle.app_model.specs.Masks.{in_mask};
ghost use Rattle.solution.specs.Words.{has};
ghost use Rattle.solution.specs.Table.{row_len};
ghost use Rattle.solution.specs.Facts.{holds, place_count, HasPlaces, Joins, Adds};
ghost use Rattle.solution.specs.Starts.{AreEmpty};

use crate::table::Table;
use crate::words::{one, row_of};
use app_model::Subject;
use ns_base::{ComponentNo, MethodNo, OutOfMemory};
use std::alloc::{AllocError, Global};
use std::marker::Model;

// The rows of `ends`.
const RETURNED: usize = 0;

const THROWN: usize = 1;

const VIEWS: usize = 2;

/// Facts of one lock field. A word has a row for each entry status of a method, or for each state of a
/// component; the row has the statuses. An instruction has a place where the callbacks reach its method.
#[derive(Drop)]
pub struct Solution {
    code: Table,
    ends: Table,
}

impl Model for Solution {
    ghost use Rattle.solution.specs.Facts.{Facts};

    ghost Value = { Facts };

    ghost view = { λ s. record { code = s.code; ends = s.ends } };
}

// How many instructions of a method have a place.
#[tactic(auto, unfolding(crate::specs::Facts::place_count))]
fn place_count(subject: &Subject, method: MethodNo) -> u32
    requires { method.0 < length subject.now.app.methods }
    ensures { result ≡ place_count subject.now method.0 }
{
    if !subject.reaches(method) {
        return 0;
    }
    subject.app.code_len(method)
}

fn component_count(subject: &Subject) -> usize
    ensures { result ≡ length subject.now.list }
{
    subject.list.rows.len()
}

fn method_count(subject: &Subject) -> usize
    ensures { result ≡ length subject.now.app.methods }
{
    subject.app.method_count() as usize
}

fn empty_code(alloc: Global, subject: &Subject) -> Result<Table, AllocError>
    ensures { IfOk result (λ code. AreEmpty (place_count subject.now) (length subject.now.app.methods) code) }
{
    let mut code = Table::new(alloc);
    for method in 0..subject.app.method_count() {
        code.add_row(alloc, place_count(subject, MethodNo(method)) as usize)?;
    }
    Ok(code)
}

fn empty_ends(alloc: Global, methods: usize, components: usize) -> Result<Table, AllocError>
    ensures { IfOk result (λ ends. ends ≡ replicate methods 0 ∷ replicate methods 0 ∷ replicate components 0 ∷ []) }
{
    let mut ends = Table::new(alloc);
    ends.add_row(alloc, methods)?;
    ends.add_row(alloc, methods)?;
    ends.add_row(alloc, components)?;
    Ok(ends)
}

fn build(alloc: Global, subject: &Subject) -> Result<Solution, AllocError>
    ensures places { IfOk result (λ solution. HasPlaces subject.now solution) }
    ensures empty { IfOk result (λ solution. (f : Fact) → holds solution f ≡ false) }
{
    subject.told();
    let code = empty_code(alloc, subject)?;
    let ends = empty_ends(alloc, method_count(subject), component_count(subject))?;
    Ok(Solution { code, ends })
}

impl Solution {
    /// No facts, with the places of a subject.
    pub fn new(alloc: Global, subject: &Subject) -> Result<Solution, OutOfMemory>
        ensures places { IfOk result (λ solution. HasPlaces subject.now solution) }
        ensures empty { IfOk result (λ solution. (f : Fact) → holds solution f ≡ false) }
    {
        match build(alloc, subject) {
            Ok(solution) => Ok(solution),
            Err(AllocError) => Err(OutOfMemory),
        }
    }

    /// The statuses before an instruction, a row for each entry status.
    pub fn at_word(&self, method: MethodNo, index: u32) -> u64
        requires { index < row_len self.now.code method.0 }
        ensures { (e s : ℕ) → has result e s ≡ holds self.now (At method.0 e index s) }
    {
        self.code.word(method.0 as usize, index as usize)
    }

    /// The statuses at which a method returns, a row for each entry status.
    pub fn ret_word(&self, method: MethodNo) -> u64
        requires { method.0 < row_len self.now.ends 0 }
        ensures { (e s : ℕ) → has result e s ≡ holds self.now (Ret method.0 e s) }
    {
        self.ends.word(RETURNED, method.0 as usize)
    }

    /// The statuses at which a throw leaves a method, a row for each entry status.
    pub fn exc_word(&self, method: MethodNo) -> u64
        requires { method.0 < row_len self.now.ends 1 }
        ensures { (e s : ℕ) → has result e s ≡ holds self.now (Exc method.0 e s) }
    {
        self.ends.word(THROWN, method.0 as usize)
    }

    /// The statuses of a component at idle moments, a row for each state.
    pub fn view_word(&self, component: ComponentNo) -> u64
        requires { component.0 < row_len self.now.ends 2 }
        ensures { (q s : ℕ) → has result q s ≡ holds self.now (View component.0 q s) }
    {
        self.ends.word(VIEWS, component.0 as usize)
    }

    /// Adds the facts of a word, and tells whether one is new.
    pub fn join_at(&mut self, method: MethodNo, index: u32, word: u64) -> bool
        requires { index < row_len self.old.code method.0 }
        ensures { Joins self.old (λ e s. At method.0 e index s) word self.new result }
    {
        self.code.or_word(method.0 as usize, index as usize, word)
    }

    /// Adds the facts of a word, and tells whether one is new.
    pub fn join_ret(&mut self, method: MethodNo, word: u64) -> bool
        requires { method.0 < row_len self.old.ends 0 }
        ensures { Joins self.old (λ e s. Ret method.0 e s) word self.new result }
    {
        self.ends.or_word(RETURNED, method.0 as usize, word)
    }

    /// Adds the facts of a word, and tells whether one is new.
    pub fn join_exc(&mut self, method: MethodNo, word: u64) -> bool
        requires { method.0 < row_len self.old.ends 1 }
        ensures { Joins self.old (λ e s. Exc method.0 e s) word self.new result }
    {
        self.ends.or_word(THROWN, method.0 as usize, word)
    }

    /// Adds the facts of a word, and tells whether one is new.
    pub fn join_view(&mut self, component: ComponentNo, word: u64) -> bool
        requires { component.0 < row_len self.old.ends 2 }
        ensures { Joins self.old (λ q s. View component.0 q s) word self.new result }
    {
        self.ends.or_word(VIEWS, component.0 as usize, word)
    }

    /// The statuses of a component that may be in a state at an idle moment, as a mask.
    pub fn view(&self, component: ComponentNo, state: u8) -> u8
        requires component { component.0 < row_len self.now.ends 2 }
        requires state { state < 8 }
        ensures { (s : ℕ) → in_mask result s ≡ holds self.now (View component.0 state s) }
    {
        row_of(self.view_word(component), state)
    }

    /// The statuses before an instruction of a method that was entered at a status, as a mask.
    pub fn at(&self, method: MethodNo, entry: u8, index: u32) -> u8
        requires entry { entry < 8 }
        requires index { index < row_len self.now.code method.0 }
        ensures { (s : ℕ) → in_mask result s ≡ holds self.now (At method.0 entry index s) }
    {
        row_of(self.at_word(method, index), entry)
    }

    /// The statuses at which a method returns that was entered at a status, as a mask.
    pub fn ret(&self, method: MethodNo, entry: u8) -> u8
        requires method { method.0 < row_len self.now.ends 0 }
        requires entry { entry < 8 }
        ensures { (s : ℕ) → in_mask result s ≡ holds self.now (Ret method.0 entry s) }
    {
        row_of(self.ret_word(method), entry)
    }

    /// The statuses at which a throw leaves a method that was entered at a status, as a mask.
    pub fn exc(&self, method: MethodNo, entry: u8) -> u8
        requires method { method.0 < row_len self.now.ends 1 }
        requires entry { entry < 8 }
        ensures { (s : ℕ) → in_mask result s ≡ holds self.now (Exc method.0 entry s) }
    {
        row_of(self.exc_word(method), entry)
    }

    /// Adds one fact. Places are there from the start, so this takes no memory and never fails.
    pub fn add_view(
        &mut self,
        _alloc: Global,
        component: ComponentNo,
        state: u8,
        status: u8,
    ) -> Result<(), OutOfMemory>
        requires component { component.0 < row_len self.old.ends 2 }
        requires state { state < 8 }
        requires status { status < 8 }
        ensures ok { IsOk result }
        ensures adds { Adds self.old (View component.0 state status) self.new }
    {
        self.join_view(component, one(state, status));
        Ok(())
    }

    /// Adds one fact. It takes no memory and never fails.
    pub fn add_at(
        &mut self,
        _alloc: Global,
        method: MethodNo,
        entry: u8,
        index: u32,
        status: u8,
    ) -> Result<(), OutOfMemory>
        requires entry { entry < 8 }
        requires index { index < row_len self.old.code method.0 }
        requires status { status < 8 }
        ensures ok { IsOk result }
        ensures adds { Adds self.old (At method.0 entry index status) self.new }
    {
        self.join_at(method, index, one(entry, status));
        Ok(())
    }

    /// Adds one fact. It takes no memory and never fails.
    pub fn add_ret(
        &mut self,
        _alloc: Global,
        method: MethodNo,
        entry: u8,
        status: u8,
    ) -> Result<(), OutOfMemory>
        requires method { method.0 < row_len self.old.ends 0 }
        requires entry { entry < 8 }
        requires status { status < 8 }
        ensures ok { IsOk result }
        ensures adds { Adds self.old (Ret method.0 entry status) self.new }
    {
        self.join_ret(method, one(entry, status));
        Ok(())
    }

    /// Adds one fact. It takes no memory and never fails.
    pub fn add_exc(
        &mut self,
        _alloc: Global,
        method: MethodNo,
        entry: u8,
        status: u8,
    ) -> Result<(), OutOfMemory>
        requires method { method.0 < row_len self.old.ends 1 }
        requires entry { entry < 8 }
        requires status { status < 8 }
        ensures ok { IsOk result }
        ensures adds { Adds self.old (Exc method.0 entry status) self.new }
    {
        self.join_exc(method, one(entry, status));
        Ok(())
    }
}
