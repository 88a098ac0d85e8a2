//! What a line leads to. It promises only that what is worked on stays the same.
ghost use Rattle.fact_log.specs.Work.{Keeps};

use crate::lines::{has_place, line_at};
use crate::log::{Line, Why};
use crate::work::Work;
use flow_model::has_status;
use log_queue::{Queue, Wait, key};
use ns_base::MethodNo;
use report_path::{Goal, Spot};
use solution::single;
use std::alloc::AllocError;

fn mask_of(status: u8) -> u8 {
    if status >= 8 {
        return 0;
    }
    single(status)
}

// What a line leads to, by an end of what it calls, is in its method.
fn led(line: Line, from: u32, end: Option<u32>) -> Line {
    let why = Why::Led { from, end };
    Line { why, ..line }
}

impl<'a> Work<'a> {
    // Pushes a line at the statuses of a mask, by the successor of that number where it is by one.
    fn push_at(&mut self, line: Line, goal: Goal, mask: u8, near: u32) -> Result<(), AllocError>
        ensures { Keeps self.old self.new }
    {
        for status in 0..8u8 {
            if has_status(mask, status as usize) {
                let line = Line {
                    status,
                    goal,
                    ..line
                };
                self.push_line(line, near)?;
            }
        }
        Ok(())
    }

    fn pass_on(&mut self, spot: &Spot, line: Line) -> Result<(), AllocError>
        ensures { Keeps self.old self.new }
    {
        for number in 0..u32::MAX {
            let Some(to) = spot.successor(number) else {
                return Ok(());
            };
            self.push_at(line, Goal::Before(to), spot.passing(number), number)?;
        }
        Ok(())
    }

    // What is thrown at the statuses of a mask.
    fn throw_to(&mut self, spot: &Spot, line: Line, mask: u8) -> Result<(), AllocError>
        ensures { Keeps self.old self.new }
    {
        if spot.may_leave() {
            self.push_at(line, Goal::Thrown, mask, 0)?;
        }
        for number in 0..u32::MAX {
            let Some(to) = spot.handler(number) else {
                return Ok(());
            };
            self.push_at(line, Goal::Before(to), mask, 0)?;
        }
        Ok(())
    }

    fn give_back(&mut self, spot: &Spot, line: Line) -> Result<(), AllocError>
        ensures { Keeps self.old self.new }
    {
        if !spot.returns() {
            return Ok(());
        }
        self.push_at(line, Goal::Returned, mask_of(line.status), 0)
    }

    // What is called ends.
    fn come_back(&mut self, spot: &Spot, line: Line, end: Line) -> Result<(), AllocError>
        ensures { Keeps self.old self.new }
    {
        let mask = mask_of(end.status);
        match (end.goal, spot.successor(0)) {
            (Goal::Thrown, _) => self.throw_to(spot, line, mask),
            (Goal::Returned, Some(to)) => self.push_at(line, Goal::Before(to), mask, 0),
            (Goal::Returned | Goal::Before(_), _) => Ok(()),
        }
    }

    // The instruction before which a line stands, at its status.
    fn spot_at(&self, line: Line) -> Option<Spot<'a>> {
        let Goal::Before(index) = line.goal else {
            return None;
        };
        let subject = self.subject;
        if line.status >= 8 || !has_place(subject, line.method, index) {
            return None;
        }
        let method = MethodNo(line.method);
        Some(Spot::new(subject, self.lock, method, index, line.status))
    }

    /// A line at a call, by its number, goes on by the line of an end of what it calls.
    pub fn resume(&mut self, number: u32, end: u32) -> Result<(), AllocError>
        ensures { Keeps self.old self.new }
    {
        let (Some(line), Some(found)) = (line_at(&self.lines, number), line_at(&self.lines, end))
        else {
            return Ok(());
        };
        match self.spot_at(line) {
            Some(spot) => self.come_back(&spot, led(line, number, Some(end)), found),
            None => Ok(()),
        }
    }

    fn call_all(
        &mut self,
        queue: &mut Queue,
        spot: &Spot,
        number: u32,
        status: u8,
    ) -> Result<(), AllocError>
        ensures { Keeps self.old self.new }
    {
        let callees = spot.callees();
        if callees.is_empty() || !spot.is_open() {
            return Ok(());
        }
        for k in 0..callees.len() {
            self.enter(queue, Wait::Call(number), callees[k].0, status)?;
        }
        Ok(())
    }

    fn lead_from(&mut self, queue: &mut Queue, number: u32, line: Line) -> Result<(), AllocError>
        ensures { Keeps self.old self.new }
    {
        let Some(spot) = self.spot_at(line) else {
            return Ok(());
        };
        let next = led(line, number, None);
        self.pass_on(&spot, next)?;
        self.throw_to(&spot, next, spot.throwing())?;
        self.give_back(&spot, next)?;
        self.call_all(queue, &spot, number, line.status)
    }

    /// Pushes what a line leads to.
    pub fn lead(&mut self, queue: &mut Queue, number: u32) -> Result<(), AllocError>
        ensures { Keeps self.old self.new }
    {
        let Some(line) = line_at(&self.lines, number) else {
            return Ok(());
        };
        match line.goal {
            Goal::Before(_) => self.lead_from(queue, number, line),
            Goal::Returned | Goal::Thrown => self.end(queue, key(line.method, line.entry), number),
        }
    }
}
