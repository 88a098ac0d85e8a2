//! What is solved, and places in its code.
ghost use Rattle.std.specs.Prelude.{◌≡◌, ◌<◌, length};
ghost use Rattle.app_model.specs.Subject.{callees_at};
ghost use Rattle.app_model.specs.Words.{code_len, successor_at, handler_at, leaves_at};
ghost use Rattle.flow_model.specs.Subject.{returns_at};
ghost use Rattle.solver.specs.Turns.{IsPlace};
ghost use Rattle.solver.specs.Returns.{returns};

use app_model::Subject;
use dalvik::Ins;
use ns_base::{LockNo, MethodNo};

/// A subject and one of its locks.
#[derive(Clone, Copy)]
pub struct Task<'a> {
    pub subject: &'a Subject,
    pub lock: LockNo,
}

/// An instruction of a method.
#[derive(Clone, Copy)]
pub struct Site {
    pub method: MethodNo,
    pub index: u32,
}

/// A successor or a handler of an instruction: its number among them, and where it stands.
#[derive(Clone, Copy)]
pub struct Way {
    pub number: u32,
    pub to: u32,
}

impl Task<'_> {
    pub fn method_count(&self) -> u32
        ensures { result ≡ length self.now.subject.now.app.methods }
    {
        let subject = self.subject;
        subject.app.method_count()
    }

    pub fn code_len(&self, method: MethodNo) -> u32
        requires { method.0 < length self.now.subject.now.app.methods }
        ensures { result ≡ code_len self.now.subject.now.app method.0 }
    {
        let subject = self.subject;
        subject.app.code_len(method)
    }

    /// Where control can go from an instruction, by number.
    pub fn successor(&self, site: Site, number: u32) -> Option<u32>
        requires { IsPlace self.now.subject.now self.now.lock.0 site.method.0 site.index }
        ensures { result ≡ successor_at self.now.subject.now.app site.method.0 site.index number }
    {
        let subject = self.subject;
        subject.app.successor(site.method, site.index, number)
    }

    /// Where a throw can go, by number.
    pub fn handler(&self, site: Site, number: u32) -> Option<u32>
        requires { IsPlace self.now.subject.now self.now.lock.0 site.method.0 site.index }
        ensures { result ≡ handler_at self.now.subject.now.app site.method.0 site.index number }
    {
        let subject = self.subject;
        subject.app.handler(site.method, site.index, number)
    }

    /// Whether a throw can leave the method there.
    pub fn leaves(&self, site: Site) -> bool
        requires { IsPlace self.now.subject.now self.now.lock.0 site.method.0 site.index }
        ensures { result ≡ leaves_at self.now.subject.now.app site.method.0 site.index }
    {
        let subject = self.subject;
        subject.app.may_leave(site.method, site.index)
    }

    #[tactic(auto, unfolding(act_model::specs::Acts::act_at))]
    pub fn returns(&self, site: Site) -> bool
        requires { IsPlace self.now.subject.now self.now.lock.0 site.method.0 site.index }
        ensures { result ≡ returns_at self.now.subject.now site.method.0 site.index }
    {
        let subject = self.subject;
        let (_, ins) = subject.app.ins(site.method, site.index);
        is_return(&ins)
    }

    pub fn callees(&self, site: Site) -> &[MethodNo]
        requires { IsPlace self.now.subject.now self.now.lock.0 site.method.0 site.index }
        ensures { result.now ≡ callees_at self.now.subject.now site.method.0 site.index }
    {
        self.subject.callees(site.method, site.index)
    }
}

// No other instruction returns.
fn is_return(ins: &Ins) -> bool
    ensures { result ≡ returns ins.now }
{
    matches!(ins, Ins::ReturnVoid | Ins::Return { .. })
}
