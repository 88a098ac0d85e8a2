//! What the flow rules say of the runs of the machine.
ghost use Rattle.std.specs.Prelude.{◌≡◌, ◌<◌, ◌↔◌, ◌≢◌, ◌%◌, ℕ, List, [], length, slice_get, Option, Some, true};
ghost use Rattle.flow_model.specs.Derived.{Set, IsClosed};
ghost use Rattle.app_model.specs.Masks.{is_held};
ghost use Rattle.flow_model.specs.Policy.{MeetsPolicy};
ghost use Rattle.flow_model.specs.Rules.{Inner, Rules};
ghost use Rattle.flow_model.specs.Subject.{status_masks};
ghost use Rattle.app_model.specs.Subject.{IsSubject, SubjectParts, slot_count};
ghost use Rattle.flow_model.specs.InScope.{IsInScope};
ghost use Rattle.act_model.specs.Acts.{act_at};
ghost use Rattle.act_model.specs.declared.act.Act.TheVariants.{Call};
ghost use Rattle.act_model.specs.declared.act.Gives.{Gives};
ghost use Rattle.app_model.specs.CallGraph.{targets_at};
ghost use Rattle.app_model.specs.Targets.{IsCallGraph};
ghost use Rattle.app_model.specs.Words.{named_at};
ghost use Rattle.app_model.specs.declared.calls.By.{By};
ghost use Rattle.app_model.specs.declared.lock_use.LockUse.{LockUse};
ghost use Rattle.dalvik.specs.declared.ins.Args.{Args};
ghost use Rattle.run_model.specs.Heaps.{Heap, status};
ghost use Rattle.run_model.specs.Frames.{Callback, Frame, Running, State};
ghost use Rattle.run_model.specs.Calls.{target_of};
ghost use Rattle.run_model.specs.Machine.{count_of, option_at, options_of, run_of, starts, step};
ghost use Rattle.run_model.specs.Choices.{listed};
ghost use Rattle.run_model.specs.Relation.{Each, IsHeap, IsIdle, IsInside, IsSound};
ghost use Rattle.run_model.specs.Soundness.{FitsTarget, HoldsLock, LeavesNoneHeld, StandsWell};
ghost use Rattle.run_model.specs.Tagged.{IsTagged};
ghost use Rattle.run_model.specs.Worked.{CallsSuper, ClearsOwned, CopyDown, CopyUp, DivisionByTwo, DivisionThrows, FirstSlowest, KeepsStatic, LeadsOutside, LeavesFree, LeavesHeld, LockEscapes, LosesLock, MakingThrows, MonitorOnNull, MonitorOnObject, NoReceiver, NoSuchStart, NonzeroBranches, NullReceiver, OutsideEnds, PicksOverride, ReceiverFirst, ReleaseThrows, RestsAlone, ServiceFirst, StartsCounted, StaticCall, StaticReturn, StoreToNull, StoreToObject, SwitchGoes, ThrowsThrough, WideRead, ZeroBranches};
ghost use Rattle.run_model.specs.WorkedCalls.{CaughtAbove, EndsAmidHeld, FirstIsLost, FramesLeft, HeldOverCall, ReleasesOther, SecondHolds};

/// Soundness, for every subject in scope, lock field, closed set of facts and list of choices: at no policy exit is a lock
/// of the field held, where the set meets the policy. The relation between the set and the state in which a run stands, of
/// which it follows that no lock ever escapes, needs no policy.
pub fn soundness()
    ensures runs { (x : SubjectParts) (l : ℕ) (set : Set) → IsSubject x → IsInScope x → l < slot_count x → IsClosed (Rules x l) set → MeetsPolicy x l set → (choices : List ℕ) → StandsWell x l (run_of x choices) }
    ensures counts { (x : SubjectParts) (l : ℕ) (set : Set) → IsSubject x → IsInScope x → l < slot_count x → IsClosed (Rules x l) set → MeetsPolicy x l set → (choices : List ℕ) → LeavesNoneHeld x l (run_of x choices) }
    ensures relation { (x : SubjectParts) (l : ℕ) (set : Set) → IsSubject x → IsInScope x → IsClosed (Rules x l) set → (choices : List ℕ) → IsSound x l set (run_of x choices) }
{}

/// The same of each subject whose tags follow the code, in scope or not.
pub fn tagged_soundness()
    ensures runs { (x : SubjectParts) (l : ℕ) (set : Set) → IsTagged x → l < slot_count x → IsClosed (Rules x l) set → MeetsPolicy x l set → (choices : List ℕ) → StandsWell x l (run_of x choices) }
    ensures counts { (x : SubjectParts) (l : ℕ) (set : Set) → IsTagged x → l < slot_count x → IsClosed (Rules x l) set → MeetsPolicy x l set → (choices : List ℕ) → LeavesNoneHeld x l (run_of x choices) }
    ensures relation { (x : SubjectParts) (l : ℕ) (set : Set) → IsTagged x → IsClosed (Rules x l) set → (choices : List ℕ) → IsSound x l set (run_of x choices) }
{}

/// What a subject in scope has of what soundness asks: its tags follow the code into callees and back, no lock escapes,
/// and no call of a lock is wrong.
pub fn scope_law()
    ensures tagged { (x : SubjectParts) → IsSubject x → IsInScope x → IsTagged x }
{}

/// The part of it that needs the rules inside callbacks alone: the start of a callback, and each step inside it.
pub fn soundness_inside()
    ensures starts { (x : SubjectParts) (l : ℕ) (set : Set) → IsTagged x → IsClosed (Inner x l (status_masks x l)) set → (states : List ℕ) (h : Heap) → IsIdle x l set states h → Each (IsInside x l set) (listed (starts x states h)) }
    ensures steps { (x : SubjectParts) (l : ℕ) (set : Set) → IsTagged x → IsClosed (Inner x l (status_masks x l)) set → (at : Callback) (h : Heap) (frames : List Frame) → IsInside x l set (Running at h frames) → Each (IsInside x l set) (options_of x (Running at h frames)) }
{}

/// Where a call of the machine leads is among its targets in a call graph of the application: into a callee, or outside
/// where the graph says so.
pub fn call_targets()
    ensures fits { (x : SubjectParts) (m i : ℕ) (by : By) (usage : LockUse) (arguments : Args) (given : Gives) (type : Option ℕ) → IsCallGraph x.app x.graph → act_at x.app m i ≡ Some (Call by usage arguments given) → FitsTarget (targets_at x.graph m i) (target_of x.app m by usage (named_at x.app m i) type) }
{}

/// A status is held exactly where the field owns a lock with a count above zero.
pub fn held_statuses()
    ensures held { (n l : ℕ) (h : Heap) → IsHeap n h → (is_held (status h l) ≡ true) ↔ HoldsLock h l }
{}

/// The options of a state, of which there is always one: how many they are, and each single one, can be told without the
/// list of them, and a step takes the one of its number.
pub fn options_law()
    ensures some { (x : SubjectParts) (s : State) → options_of x s ≢ [] }
    ensures count { (x : SubjectParts) (s : State) → length (options_of x s) ≡ count_of x s }
    ensures member { (x : SubjectParts) (s : State) (k : ℕ) → slice_get (options_of x s) k ≡ option_at x s k }
    ensures step { (x : SubjectParts) (s : State) (k : ℕ) → option_at x s (k % count_of x s) ≡ Some (step x k s) }
{}

/// Runs of small applications by computation, so that an error which the rules share with the machine shows.
pub fn worked_runs()
    ensures division { DivisionThrows }
    ensures literal { DivisionByTwo }
    ensures wide_read { WideRead }
    ensures null_monitor { MonitorOnNull }
    ensures monitor { MonitorOnObject }
    ensures null_store { StoreToNull }
    ensures store { StoreToObject }
    ensures switch { SwitchGoes }
    ensures zero { ZeroBranches }
    ensures nonzero { NonzeroBranches }
    ensures up { CopyUp }
    ensures down { CopyDown }
    ensures held { LeavesHeld }
    ensures free { LeavesFree }
    ensures release { ReleaseThrows }
    ensures escape { LockEscapes }
    ensures throws { MakingThrows }
    ensures lost { LosesLock }
    ensures kept { KeepsStatic }
    ensures cleared { ClearsOwned }
    ensures receiver { ReceiverFirst }
    ensures service { ServiceFirst }
    ensures outside { OutsideEnds }
    ensures static_call { StaticCall }
    ensures static_return { StaticReturn }
    ensures through { ThrowsThrough }
    ensures overriding { PicksOverride }
    ensures super_call { CallsSuper }
    ensures leads_outside { LeadsOutside }
    ensures no_receiver { NoReceiver }
    ensures null_receiver { NullReceiver }
    ensures rest { RestsAlone }
    ensures counted { StartsCounted }
    ensures first_slowest { FirstSlowest }
    ensures no_such_start { NoSuchStart }
{}

/// The same of lifecycles that come round, of a throw and a lock over calls, and of components that share a lock field.
pub fn worked_calls()
    ensures second_object { SecondHolds }
    ensures lost_object { FirstIsLost }
    ensures frames_left { FramesLeft }
    ensures caught { CaughtAbove }
    ensures over_call { HeldOverCall }
    ensures amid_held { EndsAmidHeld }
    ensures other_released { ReleasesOther }
{}
