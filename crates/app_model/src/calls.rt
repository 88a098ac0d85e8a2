//! How calls find what they call.
ghost use Rattle.std.specs.Prelude.{◌≡◌};
ghost use Rattle.app_model.specs.Targets as spec;

use dalvik::opcode;

/// How a call finds its method. All but static calls have a receiver, their first argument.
#[derive(Clone, Copy)]
pub enum By {
    /// By the receiver's type; interface calls too.
    Virtual,
    Super,
    Direct,
    Static,
}

/// How an invoke of this opcode finds its method.
pub fn call_by(op: u8) -> By
    ensures { result ≡ spec.call_by op }
{
    match op {
        opcode::INVOKE_SUPER | opcode::INVOKE_SUPER_RANGE => By::Super,
        opcode::INVOKE_DIRECT | opcode::INVOKE_DIRECT_RANGE => By::Direct,
        opcode::INVOKE_STATIC | opcode::INVOKE_STATIC_RANGE => By::Static,
        _ => By::Virtual,
    }
}
