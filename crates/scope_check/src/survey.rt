//! All that is known before the rules are looked at.
ghost use Rattle.std.specs.Prelude.{◌≡◌, ◌<◌, IfOk, Some, length};
ghost use Rattle.act_model.specs.Acts.{act_at};
ghost use Rattle.app_model.specs.Components.{entries_of};
ghost use Rattle.app_model.specs.Words.{code_len, ins_at, pc_at};
ghost use Rattle.call_reach.specs.Starts.{AreGathered, AreReached};
ghost use Rattle.class_graph.specs.Belongs.{IsClassGraph};
ghost use Rattle.scope_facts.specs.LockCode.{AreLockWords};
ghost use Rattle.scope_facts.specs.Fields.{is_marked};
ghost use Rattle.scope_check.specs.Surveys.{AreCallbacks, AreLockSets, AreTables, IsSurvey};
ghost use Rattle.scope_facts.specs.Texts.{AreKinds};

use act_model::{Act, act_of};
use call_reach::{gathers, reach};
use class_graph::ClassGraph;
use dalvik::Ins;
use flow_model::TagsAt;
use ns_base::{MethodNo, OutOfMemory};
use scope_facts::{
    Case, KindRow, NameRow, faulty_locks, find_seen, kind_rows, lock_count, lock_words, name_rows,
    static_locks,
};
use std::alloc::{AllocError, Global};
use std::marker::Model;

/// The methods of the callbacks, and whether these reach each method.
#[derive(Drop)]
pub(crate) struct Callbacks {
    pub entries: Vec<MethodNo>,
    pub reached: Vec<bool>,
}

/// A row for each type and each name; a word for each method on its own lock instructions, and one on those of its reach.
#[derive(Drop)]
pub(crate) struct Tables {
    pub kinds: Vec<KindRow>,
    pub names: Vec<NameRow>,
    pub own: Vec<u64>,
    pub below: Vec<u64>,
}

/// The static lock fields, those that reached code accesses, and the instance ones that have not their one owner.
#[derive(Clone, Copy)]
pub(crate) struct LockSets {
    pub statics: u64,
    pub accessed: u64,
    pub faulty: u64,
}

/// A case with what is found of it.
#[derive(Drop)]
pub(crate) struct Survey {
    pub case: Case,
    pub callbacks: Callbacks,
    pub tables: Tables,
    pub locks: LockSets,
}

impl Model for Survey {
    ghost use Rattle.scope_check.specs.Surveys.{SurveyParts, IsSurvey};

    ghost Value = { SurveyParts };

    ghost view = { λ s. record {
      case = s.case;
      entries = s.callbacks.entries.items;
      reached = s.callbacks.reached.items;
      kinds = s.tables.kinds.items;
      names = s.tables.names.items;
      own = s.tables.own.items;
      below = s.tables.below.items;
      statics = s.locks.statics;
      accessed = s.locks.accessed;
      faulty = s.locks.faulty;
    } };

    ghost invariant = { λ s. IsSurvey (record {
      case = s.case;
      entries = s.callbacks.entries.items;
      reached = s.callbacks.reached.items;
      kinds = s.tables.kinds.items;
      names = s.tables.names.items;
      own = s.tables.own.items;
      below = s.tables.below.items;
      statics = s.locks.statics;
      accessed = s.locks.accessed;
      faulty = s.locks.faulty;
    }) };
}

fn reach_of(alloc: Global, case: &Case, entries: &[MethodNo]) -> Result<Vec<bool>, AllocError>
    requires { entries.now ≡ entries_of case.now.list }
    ensures { IfOk result (λ marks. AreReached case.now.app case.now.graph (entries_of case.now.list) marks.items) }
{
    case.told();
    match reach(alloc, &case.app, &case.graph, entries) {
        Ok(marks) => Ok(marks),
        Err(OutOfMemory) => Err(AllocError),
    }
}

fn words_below(alloc: Global, case: &Case, own: &[u64]) -> Result<Vec<u64>, AllocError>
    requires { AreLockWords case.now.app own.now }
    ensures { IfOk result (λ words. AreGathered case.now.app case.now.graph own.now words.items) }
{
    case.told();
    let own = own.to_vec(alloc)?;
    match gathers(alloc, &case.app, &case.graph, own) {
        Ok(words) => Ok(words),
        Err(OutOfMemory) => Err(AllocError),
    }
}

fn find_callbacks(alloc: Global, case: &Case) -> Result<Callbacks, AllocError>
    ensures { IfOk result (AreCallbacks case.now) }
{
    let entries = case.entries(alloc)?;
    let reached = reach_of(alloc, case, &entries)?;
    Ok(Callbacks { entries, reached })
}

fn make_tables(alloc: Global, case: &Case, classes: &ClassGraph) -> Result<Tables, AllocError>
    requires { IsClassGraph case.now.app classes.now }
    ensures { IfOk result (AreTables case.now) }
{
    let kinds = kind_rows(alloc, &case.app, classes)?;
    let names = name_rows(alloc, &case.app)?;
    let own = lock_words(alloc, &case.app, &names)?;
    let below = words_below(alloc, case, &own)?;
    Ok(Tables {
        kinds,
        names,
        own,
        below,
    })
}

fn find_lock_sets(
    case: &Case,
    classes: &ClassGraph,
    kinds: &[KindRow],
    reached: &[bool],
) -> LockSets
    requires classes { IsClassGraph case.now.app classes.now }
    requires kinds { AreKinds case.now.app kinds.now }
    requires reached { length reached.now ≡ length case.now.app.methods }
    ensures { AreLockSets case.now reached.now result }
{
    let seen = find_seen(&case.app, kinds, reached);
    LockSets {
        statics: static_locks(&case.app),
        accessed: seen.accessed,
        faulty: faulty_locks(case, classes, seen.made),
    }
}

impl Survey {
    pub fn new(alloc: Global, case: Case, classes: &ClassGraph) -> Result<Survey, AllocError>
        requires { IsClassGraph case.app classes.now }
        ensures { IfOk result (λ survey. survey.case ≡ case) }
    {
        case.told();
        let callbacks = find_callbacks(alloc, &case)?;
        let tables = make_tables(alloc, &case, classes)?;
        let locks = find_lock_sets(&case, classes, &tables.kinds, &callbacks.reached);
        Ok(Survey {
            case,
            callbacks,
            tables,
            locks,
        })
    }

    /// What holds of each survey.
    pub fn told(&self)
        ensures { IsSurvey self.now }
    {
        let _ = &self.case;
    }

    /// Whether the callbacks reach a method.
    pub fn reaches(&self, method: MethodNo) -> bool
        requires { method.0 < length self.now.case.app.methods }
        ensures { result ≡ is_marked self.now.reached method.0 }
    {
        self.callbacks.reached[method.0 as usize]
    }

    pub fn lock_count(&self) -> u32
        ensures { result ≡ length self.now.case.app.locks }
    {
        let _ = &self.case;
        lock_count(&self.case.app)
    }

    pub fn method_count(&self) -> u32
        ensures { result ≡ length self.now.case.app.methods }
    {
        let _ = &self.case;
        self.case.app.method_count()
    }

    pub fn code_len(&self, method: MethodNo) -> u32
        requires { method.0 < length self.now.case.app.methods }
        ensures { result ≡ code_len self.now.case.app method.0 }
    {
        let _ = &self.case;
        self.case.app.code_len(method)
    }

    /// The pc of an instruction, and the instruction.
    pub fn ins(&self, method: MethodNo, index: u32) -> (u32, Ins)
        requires method { method.0 < length self.now.case.app.methods }
        requires index { index < code_len self.now.case.app method.0 }
        ensures pc { pc_at self.now.case.app method.0 index ≡ Some result.0 }
        ensures ins { ins_at self.now.case.app method.0 index ≡ Some result.1 }
    {
        let _ = &self.case;
        self.case.app.ins(method, index)
    }

    /// What an instruction does.
    pub fn act(&self, method: MethodNo, index: u32) -> Act
        requires method { method.0 < length self.now.case.app.methods }
        requires index { index < code_len self.now.case.app method.0 }
        ensures { act_at self.now.case.app method.0 index ≡ Some result }
    {
        let _ = &self.case;
        act_of(&self.case.app, method, index)
    }

    /// The tags before it.
    pub fn row(&self, method: MethodNo, index: u32) -> TagsAt<'_>
        ensures table { result.table.now ≡ self.now.case.tags }
        ensures method { result.method ≡ method }
        ensures index { result.index ≡ index }
    {
        let _ = &self.case;
        TagsAt {
            table: &self.case.tags,
            method,
            index,
        }
    }
}
