//! A log that is being made: a line, or a view, is pushed only where its test says that it follows, and that its fact is one of
//! the solution and not known yet.
ghost use Rattle.std.specs.Prelude.{◌≡◌, ◌<◌, ◌↔◌, IfOk, IsTrue, OnOk};
ghost use Rattle.app_model.specs.Subject.{slot_count};
ghost use Rattle.solution.specs.Facts.{HasPlaces, facts_room};
ghost use Rattle.fact_log.specs.Work.{IsNewLine, IsNewView, IsWork, Keeps};

use crate::lines::{Cited, is_line};
use crate::log::{FactLog, Line};
use crate::missing::{know_line, know_view};
use app_model::Subject;
use ns_base::{LockNo, OutOfMemory};
use report_path::{ViewStep, is_view};
use solution::Solution;
use std::alloc::{AllocError, Global};
use std::marker::Model;

/// The facts of a solution that are known, with their log.
#[derive(Drop)]
pub struct Work<'a> {
    pub(crate) subject: &'a Subject,
    pub(crate) lock: LockNo,
    pub(crate) solution: &'a Solution,
    pub(crate) known: Solution,
    pub(crate) lines: Vec<Line>,
    pub(crate) views: Vec<ViewStep>,
}

impl<'a> Model for Work<'a> {
    ghost use Rattle.fact_log.specs.Work as parts;

    ghost Value = { parts.WorkParts };

    ghost view = { λ w. record { subject = w.subject.now; lock = w.lock.0; solution = w.solution.now; known = w.known; lines = w.lines.items; views = w.views.items } };

    ghost invariant = { λ w. parts.IsWork (record { subject = w.subject.now; lock = w.lock.0; solution = w.solution.now; known = w.known; lines = w.lines.items; views = w.views.items }) };
}

impl<'a> Work<'a> {
    /// Nothing is known.
    pub fn new(
        alloc: Global,
        subject: &'a Subject,
        lock: LockNo,
        solution: &'a Solution,
    ) -> Result<Work<'a>, OutOfMemory>
        requires lock { lock.0 < slot_count subject.now }
        requires places { HasPlaces subject.now solution.now }
        ensures subject { IfOk result (λ work. work.subject ≡ subject.now) }
        ensures lock { IfOk result (λ work. work.lock ≡ lock.0) }
        ensures solution { IfOk result (λ work. work.solution ≡ solution.now) }
    {
        subject.told();
        let known = Solution::new(alloc, subject)?;
        Ok(Work {
            subject,
            lock,
            solution,
            known,
            lines: Vec::new(alloc),
            views: Vec::new(alloc),
        })
    }

    /// What holds of each.
    pub fn told(&self)
        ensures { IsWork self.now }
    {
        let _ = &self.lock;
    }

    /// Whether a line may be pushed. `near` is the number of the successor by which its instruction is tried first.
    pub fn is_new_line(&self, line: Line, near: u32) -> bool
        ensures { IsTrue result ↔ IsNewLine self.now line }
    {
        if !self.is_missing(line) {
            return false;
        }
        let lines: &[Line] = &self.lines;
        is_line(&Cited::new(self.subject, self.lock, lines, near), line)
    }

    pub fn is_new_view(&self, view: ViewStep) -> bool
        ensures { IsTrue result ↔ IsNewView self.now view }
    {
        if !self.is_unseen(view) {
            return false;
        }
        let lines: &[Line] = &self.lines;
        let views: &[ViewStep] = &self.views;
        is_view(&Cited::new(self.subject, self.lock, lines, 0), views, view)
    }

    /// Pushes a line, where it is new.
    pub fn push_line(&mut self, line: Line, near: u32) -> Result<(), AllocError>
        ensures keeps { Keeps self.old self.new }
        ensures falls { OnOk result (IsNewLine self.old line → facts_room self.new.known < facts_room self.old.known) }
    {
        if !self.is_new_line(line, near) {
            return Ok(());
        }
        if self.lines.len() >= u32::MAX as usize {
            return Err(AllocError);
        }
        self.told();
        self.lines.push(line)?;
        know_line(&mut self.known, line);
        Ok(())
    }

    /// Pushes a view, where it is new.
    pub fn push_view(&mut self, view: ViewStep) -> Result<(), AllocError>
        ensures keeps { Keeps self.old self.new }
        ensures falls { OnOk result (IsNewView self.old view → facts_room self.new.known < facts_room self.old.known) }
    {
        if !self.is_new_view(view) {
            return Ok(());
        }
        if self.views.len() >= u32::MAX as usize {
            return Err(AllocError);
        }
        self.told();
        self.views.push(view)?;
        know_view(&mut self.known, view);
        Ok(())
    }

    /// The log.
    pub fn into_log(self) -> FactLog
        ensures lines { result.lines.items ≡ self.entry.lines }
        ensures views { result.views.items ≡ self.entry.views }
    {
        let Work { lines, views, .. } = self;
        FactLog { lines, views }
    }
}
