//! Whether an application with its component list is in scope, and which violations the flow rules then derive, depends on
//! nothing else: not on how its call graph and its table of tags are kept.
//!
//! - `Graphs` (of `proofs/`): call graphs of one application have the same targets, so that the same is reached.
//! - `Tables`: tables of tags of one application have the same rows.
//! - `Breaks`: the same rules are broken.
//! - `Owners`: the same components own lock fields, and answer for them.
//! - `Rules`: the same flow rules lead from the same facts, so that there are the same violations.
#![tactic(auto)]

ghost use Rattle.std.specs.Prelude.{◌≡◌, ℕ, Bool, List};
ghost use Rattle.app_model.specs.CallGraph.{GraphParts};
ghost use Rattle.app_model.specs.Components.{ComponentParts};
ghost use Rattle.app_model.specs.Parts.{AppParts};
ghost use Rattle.app_model.specs.Subject.{SubjectParts};
ghost use Rattle.app_model.specs.TagTable.{TagParts, cell_total};
ghost use Rattle.app_model.specs.Targets.{IsCallGraph};
ghost use Rattle.flow_model.specs.Breaks.{Breaks};
ghost use Rattle.flow_model.specs.Derived.{IsClosed, IsLeast, Set};
ghost use Rattle.flow_model.specs.InScope.{IsInScope};
ghost use Rattle.flow_model.specs.Policy.{IsDerivableViolation, MeetsPolicy};
ghost use Rattle.flow_model.specs.Rules.{Rules};
ghost use Rattle.flow_model.specs.TagFlow.{IsTagTableOf, TellsReached};
ghost use Rattle.one_scope.specs.Alike.{AreAlike};

/// A subject in scope stays in scope with another call graph and another table of tags of its application: no rule is
/// broken. Tests of reach by two call graphs of one application agree, and so do the counts of cells. Subjects in scope of
/// one application and list have the same violations, of each lock field, and the same least solution; no flow rule of the
/// one leads out of a set where none of the other does, and the set meets the policy of both or of neither.
pub fn one_scope()
    ensures scope { (x : SubjectParts) (graph : GraphParts) (tags : TagParts) → IsInScope x → IsCallGraph x.app graph → IsTagTableOf x.app graph x.list tags → (rule m pc : ℕ) → ¬ Breaks (record { app = x.app; graph = graph; list = x.list; tags = tags }) rule m pc }
    ensures reach { (app : AppParts) (list : List ComponentParts) (one other : GraphParts) (first second : ℕ → Bool) → IsCallGraph app one → IsCallGraph app other → TellsReached one list first → TellsReached other list second → (m : ℕ) → first m ≡ second m }
    ensures cells { (app : AppParts) (list : List ComponentParts) (one other : GraphParts) (first second : ℕ → Bool) → IsCallGraph app one → IsCallGraph app other → TellsReached one list first → TellsReached other list second → cell_total app first ≡ cell_total app second }
    ensures violations { (x y : SubjectParts) → AreAlike x y → (l c k s : ℕ) → IsDerivableViolation x l c k s → IsDerivableViolation y l c k s }
    ensures least { (x y : SubjectParts) → AreAlike x y → (l : ℕ) (given set : Set) → IsLeast (Rules x l) given set → IsLeast (Rules y l) given set }
    ensures closed { (x y : SubjectParts) → AreAlike x y → (l : ℕ) (set : Set) → IsClosed (Rules x l) set → IsClosed (Rules y l) set }
    ensures policy { (x y : SubjectParts) → AreAlike x y → (l : ℕ) (set : Set) → MeetsPolicy x l set → MeetsPolicy y l set }
{}
