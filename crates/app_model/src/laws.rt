//! What holds of every application and call graph.
ghost use Rattle.std.specs.Prelude.{List};
ghost use Rattle.ns_base.specs.declared.rows.MethodNo.{MethodNo};
ghost use Rattle.app_model.specs.CallGraph.{GraphParts};
ghost use Rattle.app_model.specs.Hierarchy.{TellsSubtypes};
ghost use Rattle.app_model.specs.Parts.{AppParts};
ghost use Rattle.app_model.specs.Reach.{IsLeastReach};
ghost use Rattle.app_model.specs.Sound.{AreInRange};

/// The class hierarchy: the test of subtypes goes by marks on types, and tells whether there is a path of parents.
pub fn hierarchy_law()
    ensures { (app : AppParts) → AreInRange app → TellsSubtypes app }
{}

/// Reach: a method is in it exactly where a chain of callees leads to it from a given one; it is the least
/// set that has the given methods and the callees of its methods.
pub fn reach_law()
    ensures { (graph : GraphParts) (from : List MethodNo) → IsLeastReach graph from }
{}
