//! Whether an application is in scope.
ghost use Rattle.std.specs.Prelude.{◌≡◌, ℕ, IfErr, IfOk, Some};
ghost use Rattle.app_model.specs.Components.{BelongsTo};
ghost use Rattle.app_model.specs.Subject.{SubjectParts};
ghost use Rattle.app_model.specs.Targets.{IsCallGraph};
ghost use Rattle.class_graph.specs.Belongs.{IsClassGraph};
ghost use Rattle.flow_model.specs.Breaks.{Breaks};
ghost use Rattle.flow_model.specs.Breaks as breaks;
ghost use Rattle.flow_model.specs.InScope.{IsInScope, candidate_of};
ghost use Rattle.flow_model.specs.TagFlow.{IsTagTableOf};
ghost use Rattle.scope_facts.specs.Cases.{candidate};
ghost use Rattle.scope_check.specs.Causes.{IsCause, IsFaultOf};
ghost use Rattle.scope_check.specs.Passing.{IsFirst};

use crate::answers::answers;
use crate::found::Found;
use crate::owners::owners;
use crate::pass::first_break;
use crate::survey::Survey;
use app_model::{App, CallGraph, ComponentTable, Subject, TagTable};
use class_graph::ClassGraph;
use ns_base::MethodNo;
use scope_facts::Case;
use std::alloc::{AllocError, Global};

/// Why an application is not in scope.
#[derive(Debug, Drop)]
pub enum ScopeFault {
    /// A rule, by its number, is broken at a pc of a method; the pc is 0 where the whole method breaks it. The
    /// names are those of the method's class, a descriptor, and of the method.
    Rule {
        rule: u8,
        method: MethodNo,
        pc: u32,
        class_name: Vec<u8>,
        method_name: Vec<u8>,
    },
    /// Memory ran out.
    Memory,
}

#[tactic(auto, unfolding(flow_model::specs::Breaks::class_name, app_model::specs::Slots::class_text))]
fn class_name(app: &App, method: MethodNo) -> &[u8]
    ensures { result.now ≡ breaks.class_name app.now method.0 }
{
    if method.0 < app.method_count() {
        app.class_text(app.method(method).class)
    } else {
        &[]
    }
}

#[tactic(auto, unfolding(flow_model::specs::Breaks::method_name))]
fn method_name(app: &App, method: MethodNo) -> &[u8]
    ensures { result.now ≡ breaks.method_name app.now method.0 }
{
    if method.0 < app.method_count() {
        app.name_text(app.method(method).name)
    } else {
        &[]
    }
}

fn rule_of(alloc: Global, survey: &Survey, found: Found) -> Result<ScopeFault, AllocError>
    ensures { IfOk result (IsFaultOf survey.now.case.app found) }
{
    let _ = &survey.case;
    let app = &survey.case.app;
    let class_name = class_name(app, found.method).to_vec(alloc)?;
    let method_name = method_name(app, found.method).to_vec(alloc)?;
    Ok(ScopeFault::Rule {
        rule: found.rule,
        method: found.method,
        pc: found.pc,
        class_name,
        method_name,
    })
}

// The fault of what is found first.
fn fault_of(alloc: Global, survey: &Survey, found: Found) -> ScopeFault
    requires { IsFirst survey.now.case (Some found) }
    ensures { IsCause survey.now.case result }
{
    match rule_of(alloc, survey, found) {
        Ok(fault) => fault,
        Err(AllocError) => ScopeFault::Memory,
    }
}

// The subject of a survey that breaks no rule.
fn subject_of(alloc: Global, survey: Survey, classes: &ClassGraph) -> Result<Subject, AllocError>
    requires classes { IsClassGraph survey.case.app classes.now }
    requires unbroken { (rule m pc : ℕ) → ¬ Breaks survey.case rule m pc }
    ensures scope { IfOk result IsInScope }
    ensures same { IfOk result (λ subject. candidate_of subject ≡ survey.case) }
{
    survey.told();
    survey.case.told();
    let answers = answers(alloc, &survey)?;
    let owners = owners(alloc, &survey, classes)?;
    let Survey {
        case,
        callbacks,
        ..
    } = survey;
    let Case {
        app,
        graph,
        list,
        tags,
    } = case;
    Ok(Subject {
        app,
        graph,
        list,
        tags,
        reached: callbacks.reached,
        answers,
        owners,
    })
}

// The subject of a survey, or the first rule that is broken.
fn judge(alloc: Global, survey: Survey, classes: &ClassGraph) -> Result<Subject, ScopeFault>
    requires { IsClassGraph survey.case.app classes.now }
    ensures subject { IfOk result IsInScope }
    ensures same { IfOk result (λ subject. candidate_of subject ≡ survey.case) }
    ensures cause { IfErr result (IsCause survey.case) }
{
    match first_break(&survey, classes) {
        Some(found) => Err(fault_of(alloc, &survey, found)),
        None => match subject_of(alloc, survey, classes) {
            Ok(subject) => Ok(subject),
            Err(AllocError) => Err(ScopeFault::Memory),
        },
    }
}

/// The subject of an application, or the first rule that is broken, in order of rule, method and pc.
pub fn scope(
    alloc: Global,
    app: App,
    classes: &ClassGraph,
    graph: CallGraph,
    list: ComponentTable,
    tags: TagTable,
) -> Result<Subject, ScopeFault>
    requires classes { IsClassGraph app classes.now }
    requires graph { IsCallGraph app graph }
    requires list { BelongsTo app list }
    requires tags { IsTagTableOf app graph list tags }
    ensures subject { IfOk result IsInScope }
    ensures same { IfOk result (λ subject. candidate_of subject ≡ candidate app graph list tags) }
    ensures cause { IfErr result (IsCause (candidate app graph list tags)) }
{
    let case = Case::new(app, graph, list, tags);
    match Survey::new(alloc, case, classes) {
        Ok(survey) => judge(alloc, survey, classes),
        Err(AllocError) => Err(ScopeFault::Memory),
    }
}
