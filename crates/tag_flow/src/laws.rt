//! What holds of all flows.
ghost use Rattle.tag_flow.specs.Laws.{FlowLaw};

/// Flows are monotone: where one table of the same registers is above another, each row that flows in the lower
/// one has a row above it that flows in the upper one from and to the same places.
pub fn flow_law()
    ensures { FlowLaw }
{}
