//! What is entered, and goes on where it ends. It promises only that what is worked on stays the same.
ghost use Rattle.fact_log.specs.Work.{Keeps};

use crate::log::{Line, Why};
use crate::work::Work;
use log_queue::{Queue, Wait, key};
use report_path::Goal;
use std::alloc::AllocError;

impl Work<'_> {
    fn go_on(&mut self, queue: &mut Queue, wait: Wait, end: u32) -> Result<(), AllocError>
        ensures { Keeps self.old self.new }
    {
        match wait {
            Wait::Call(number) => self.resume(number, end),
            Wait::Start(by) => self.carry_by(queue, by, end),
        }
    }

    /// Enters a method at a status, and goes on by those of its ends that are known.
    pub fn enter(
        &mut self,
        queue: &mut Queue,
        wait: Wait,
        method: u32,
        status: u8,
    ) -> Result<(), AllocError>
        ensures { Keeps self.old self.new }
    {
        let line = Line {
            method,
            entry: status,
            goal: Goal::Before(0),
            status,
            why: Why::Entered,
        };
        self.push_line(line, 0)?;
        let key = key(method, status);
        queue.add_wait(key, wait)?;
        let mut link = queue.ends.last(key);
        for _ in 0..u64::MAX {
            let Some(end) = link else {
                return Ok(());
            };
            self.go_on(queue, wait, end.number)?;
            link = queue.ends.before(end);
        }
        Ok(())
    }

    /// A line is an end: what waits for it goes on.
    pub fn end(&mut self, queue: &mut Queue, key: usize, end: u32) -> Result<(), AllocError>
        ensures { Keeps self.old self.new }
    {
        queue.ends.add(key, end)?;
        let mut link = queue.waits.last(key);
        for _ in 0..u64::MAX {
            let Some(here) = link else {
                return Ok(());
            };
            if let Some(wait) = queue.wait(here.number) {
                self.go_on(queue, wait, end)?;
            }
            link = queue.waits.before(here);
        }
        Ok(())
    }
}
