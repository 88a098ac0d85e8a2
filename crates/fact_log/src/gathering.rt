//! Lines and views are led on in turns, those that came first first, so that ways are short. It promises only that what is
//! worked on stays the same.
ghost use Rattle.fact_log.specs.Work.{Keeps};

use crate::work::Work;
use log_queue::Queue;
use std::alloc::{AllocError, Global};

impl<'a> Work<'a> {
    // The next line, or the next view where there is none.
    fn lead_next(&mut self, queue: &mut Queue) -> Result<bool, AllocError>
        ensures { Keeps self.old self.new }
    {
        if let Some(number) = queue.next_line(self.line_count()) {
            self.lead(queue, number)?;
            return Ok(true);
        }
        if let Some(number) = queue.next_view(self.view_count()) {
            self.move_on(queue, number)?;
            return Ok(true);
        }
        Ok(false)
    }

    /// Pushes all that follows from what was pushed.
    pub fn gather(&mut self, alloc: Global) -> Result<(), AllocError>
        ensures { Keeps self.old self.new }
    {
        let mut queue = Queue::new(alloc, self.method_count())?;
        self.begin()?;
        // A bounded loop needs no measure.
        for _ in 0..u64::MAX {
            if !self.lead_next(&mut queue)? {
                return Ok(());
            }
        }
        Ok(())
    }
}
