//! What holds of every call.
ghost use Rattle.call_targets.specs.Laws.{CallLaw};

/// Virtual and interface calls, lock instructions and those on arrays aside: a method is among the
/// callees exactly where some class of the application that the receiver may have finds it, and the call
/// leads outside exactly where the named class is none of the application's or such a look-up does.
pub fn call_law()
    ensures { CallLaw }
{}
