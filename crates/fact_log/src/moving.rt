//! What a view leads to. It promises only that what is worked on stays the same.
ghost use Rattle.fact_log.specs.Work.{Keeps};

use crate::lines::line_at;
use crate::seek::{EDGES, moved_by};
use crate::work::Work;
use log_queue::{Move, Mover, Queue, Wait};
use report_path::{By, Edges, Goal, ViewStep, view_at};
use std::alloc::AllocError;

impl Work<'_> {
    /// Pushes the views in which components begin.
    pub fn begin(&mut self) -> Result<(), AllocError>
        ensures { Keeps self.old self.new }
    {
        for component in 0..self.component_count() {
            self.push_view(ViewStep {
                component,
                state: 0,
                status: 0,
                by: By::Start,
            })?;
        }
        Ok(())
    }

    // A view sees a move of another component.
    fn see(&mut self, number: u32, mover: Mover, status: u8) -> Result<(), AllocError>
        ensures { Keeps self.old self.new }
    {
        let Some(view) = view_at(&self.views, number) else {
            return Ok(());
        };
        let Move {
            view: moved,
            edge,
            body,
        } = mover.by;
        let by = moved_by(Some(number), moved, edge, body);
        self.push_view(ViewStep { status, by, ..view })
    }

    // A view sees the moves that are noted.
    fn watch(&mut self, queue: &Queue, number: u32, view: ViewStep) -> Result<(), AllocError>
        ensures { Keeps self.old self.new }
    {
        for status in 0..8u8 {
            if let Some(mover) = queue.movers.of_another(view.status, status, view.component) {
                self.see(number, mover, status)?;
            }
        }
        Ok(())
    }

    // The views at a status see a move.
    fn tell(&mut self, queue: &Queue, mover: Mover, from: u8, to: u8) -> Result<(), AllocError>
        ensures { Keeps self.old self.new }
    {
        let mut link = queue.seen.last(from as usize);
        for _ in 0..u64::MAX {
            let Some(view) = link else {
                return Ok(());
            };
            self.see(view.number, mover, to)?;
            link = queue.seen.before(view);
        }
        Ok(())
    }

    // A move leads from a view to a state and a status.
    fn carry(
        &mut self,
        queue: &mut Queue,
        view: ViewStep,
        by: Move,
        next: ViewStep,
    ) -> Result<(), AllocError>
        ensures { Keeps self.old self.new }
    {
        self.push_view(next)?;
        if next.status == view.status {
            return Ok(());
        }
        let mover = Mover {
            component: view.component,
            by,
        };
        if !queue.movers.note(view.status, next.status, mover) {
            return Ok(());
        }
        self.tell(queue, mover, view.status, next.status)
    }

    fn carry_to(&mut self, queue: &mut Queue, by: Move, status: u8) -> Result<(), AllocError>
        ensures { Keeps self.old self.new }
    {
        let Some(view) = view_at(&self.views, by.view) else {
            return Ok(());
        };
        let edges = Edges {
            subject: self.subject,
            lock: self.lock,
        };
        let Some(edge) = edges.edge(view.component, by.edge) else {
            return Ok(());
        };
        let next = ViewStep {
            component: view.component,
            state: edge.to,
            status,
            by: moved_by(None, by.view, by.edge, by.body),
        };
        self.carry(queue, view, by, next)
    }

    /// A move leads on by the line of an end of its callback, where that returns.
    pub fn carry_by(&mut self, queue: &mut Queue, by: Move, end: u32) -> Result<(), AllocError>
        ensures { Keeps self.old self.new }
    {
        match line_at(&self.lines, end) {
            Some(line) if line.goal == Goal::Returned => {
                let body = Some(end);
                self.carry_to(queue, Move { body, ..by }, line.status)
            }
            Some(_) | None => Ok(()),
        }
    }

    fn move_by(&mut self, queue: &mut Queue, view: ViewStep, by: Move) -> Result<(), AllocError>
        ensures { Keeps self.old self.new }
    {
        let edges = Edges {
            subject: self.subject,
            lock: self.lock,
        };
        let Some(edge) = edges.edge(view.component, by.edge) else {
            return Ok(());
        };
        if edge.from != view.state {
            return Ok(());
        }
        let entry = edges.enter(view.component, edge, view.status);
        match edges.callback(view.component, edge) {
            Some(method) => self.enter(queue, Wait::Start(by), method, entry),
            None => self.carry_to(queue, by, entry),
        }
    }

    /// Pushes what a view leads to.
    pub fn move_on(&mut self, queue: &mut Queue, number: u32) -> Result<(), AllocError>
        ensures { Keeps self.old self.new }
    {
        let Some(view) = view_at(&self.views, number) else {
            return Ok(());
        };
        queue.seen.add(view.status as usize, number)?;
        self.watch(queue, number, view)?;
        for edge in 0..EDGES {
            let by = Move {
                view: number,
                edge,
                body: None,
            };
            self.move_by(queue, view, by)?;
        }
        Ok(())
    }
}
