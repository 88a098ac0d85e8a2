//! What a call is to the wake locks.
ghost use Rattle.std.specs.Prelude.{◌≡◌, ◌<◌, length};
ghost use Rattle.app_model.specs.Words.{code_len};
ghost use Rattle.dalvik.specs.Calls.{is_virtual_call};
ghost use Rattle.app_model.specs.LockUse.{is_acquire, is_release, lock_call, is_new_wake_lock, use_of, lock_use_at};

use crate::app::App;
use crate::names::{POWER_MANAGER, STRING, WAKE_LOCK};
use crate::rows::Named;
use dalvik::{Ins, opcode};
use ns_base::MethodNo;

/// What an instruction is to the wake locks, by the method that it names.
#[derive(Clone, Copy, Debug, PartialEq, Eq)]
pub enum LockUse {
    /// Nothing: no call, or one of another method.
    Plain,
    /// `newWakeLock` makes a lock.
    Make,
    /// `acquire()` or `acquire(long)`.
    Acquire,
    /// `release()` or `release(int)`.
    Release,
    /// `isHeld()`.
    IsHeld,
    /// `setReferenceCounted(boolean)`.
    Mode,
    /// A method of a wake lock, or a `newWakeLock`, in a form that is none of these.
    Wrong,
}

/// Whether an opcode is that of an invoke-virtual, or of one by range.
fn is_virtual_call(op: u8) -> bool
    ensures { result ≡ is_virtual_call op }
{
    op == opcode::INVOKE_VIRTUAL || op == opcode::INVOKE_VIRTUAL_RANGE
}

impl App {
    /// What an instruction is to the wake locks.
    #[tactic(auto, unfolding(crate::specs::LockUse::lock_use_at))]
    pub fn lock_use(&self, method: MethodNo, index: u32) -> LockUse
        requires method { method.0 < length self.now.methods }
        requires index { index < code_len self.now method.0 }
        ensures { result ≡ lock_use_at self.now method.0 index }
    {
        let (_, Ins::Invoke { op, .. }) = self.ins(method, index) else {
            return LockUse::Plain;
        };
        match self.named(method, index) {
            Some(named) => self.use_of(op, named),
            None => LockUse::Plain,
        }
    }

    /// What an invoke of this opcode is, by the method that it names.
    pub fn use_of(&self, op: u8, named: Named) -> LockUse
        ensures { result ≡ use_of self.now op named }
    {
        if self.is_on(named, WAKE_LOCK) {
            if is_virtual_call(op) {
                self.lock_call(named)
            } else {
                LockUse::Wrong
            }
        } else if !self.is_new_wake_lock(named) {
            LockUse::Plain
        } else if is_virtual_call(op) && self.is_proto(named.proto, WAKE_LOCK, &[b"I", STRING]) {
            LockUse::Make
        } else {
            LockUse::Wrong
        }
    }

    // What a method of the wake lock's class is.
    fn lock_call(&self, named: Named) -> LockUse
        ensures { result ≡ lock_call self.now named }
    {
        if self.is_acquire(named) {
            LockUse::Acquire
        } else if self.is_release(named) {
            LockUse::Release
        } else if self.is_method(named, b"isHeld", b"Z", &[]) {
            LockUse::IsHeld
        } else if self.is_method(named, b"setReferenceCounted", b"V", &[b"Z"]) {
            LockUse::Mode
        } else {
            LockUse::Wrong
        }
    }

    fn is_acquire(&self, named: Named) -> bool
        ensures { result ≡ is_acquire self.now named }
    {
        self.is_method(named, b"acquire", b"V", &[])
            || self.is_method(named, b"acquire", b"V", &[b"J"])
    }

    fn is_release(&self, named: Named) -> bool
        ensures { result ≡ is_release self.now named }
    {
        self.is_method(named, b"release", b"V", &[])
            || self.is_method(named, b"release", b"V", &[b"I"])
    }

    fn is_new_wake_lock(&self, named: Named) -> bool
        ensures { result ≡ is_new_wake_lock self.now named }
    {
        self.is_on(named, POWER_MANAGER) && self.name_text(named.name) == b"newWakeLock".as_slice()
    }
}
