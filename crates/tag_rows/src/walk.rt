//! Methods in an order in which callees come before their callers. Nothing is promised of it.
use app_model::{App, CallGraph};
use ns_base::MethodNo;
use std::alloc::{AllocError, Global};

/// A walk from callers down to callees.
#[derive(Drop)]
struct Walk<'a> {
    app: &'a App,
    graph: &'a CallGraph,
    seen: Vec<bool>,
    // The instruction at which the walk goes on in each method, and the callee in each set.
    nexts: Vec<u32>,
    firsts: Vec<usize>,
    // The callers of the method that is walked, and the methods that are done.
    callers: Vec<MethodNo>,
    done: Vec<MethodNo>,
}

impl<'a> Walk<'a> {
    fn new(alloc: Global, app: &'a App, graph: &'a CallGraph) -> Result<Walk<'a>, AllocError> {
        let methods = app.method_count() as usize;
        Ok(Walk {
            app,
            graph,
            seen: vec![in alloc; false; methods]?,
            nexts: vec![in alloc; 0; methods]?,
            firsts: vec![in alloc; 0; graph.set_count()]?,
            callers: Vec::new(alloc),
            done: Vec::new(alloc),
        })
    }

    // Marks a method, and tells whether it was not marked.
    fn is_new(&mut self, method: MethodNo) -> bool {
        let place = method.0 as usize;
        if place >= self.seen.len() || self.seen[place] {
            return false;
        }
        self.seen[place] = true;
        true
    }

    // A new method of a set.
    fn new_of_set(&mut self, set: usize) -> Option<MethodNo> {
        let callees = self.graph.set_callees(set);
        let first = self.firsts.get(set).copied()?;
        for i in first..callees.len() {
            if self.is_new(callees[i]) {
                self.go_on_in_set(set, i);
                return Some(callees[i]);
            }
        }
        self.go_on_in_set(set, callees.len());
        None
    }

    fn go_on_in_set(&mut self, set: usize, first: usize) {
        if set < self.firsts.len() {
            self.firsts[set] = first;
        }
    }

    // A new callee of an instruction.
    fn new_callee(&mut self, method: MethodNo, index: u32) -> Option<MethodNo> {
        let set = self.graph.set_used(method, index)?;
        self.new_of_set(set as usize)
    }

    // A new callee of a method.
    fn next(&mut self, method: MethodNo) -> Option<MethodNo> {
        if method.0 >= self.app.method_count() {
            return None;
        }
        let next = self.nexts.get(method.0 as usize).copied()?;
        for index in next..self.app.code_len(method) {
            if let Some(callee) = self.new_callee(method, index) {
                self.go_on(method, index);
                return Some(callee);
            }
        }
        None
    }

    fn go_on(&mut self, method: MethodNo, next: u32) {
        let place = method.0 as usize;
        if place < self.nexts.len() {
            self.nexts[place] = next;
        }
    }

    // From one method on, until all that it reaches is done.
    fn walk(&mut self, root: MethodNo) -> Result<(), AllocError> {
        if !self.is_new(root) {
            return Ok(());
        }
        let mut method = root;
        for _ in 0..u64::MAX {
            if let Some(callee) = self.next(method) {
                self.callers.push(method)?;
                method = callee;
            } else {
                self.done.push(method)?;
                let Some(caller) = self.callers.pop() else {
                    return Ok(());
                };
                method = caller;
            }
        }
        Ok(())
    }
}

/// The methods that some roots reach, callees before their callers where no cycle is.
pub fn callees_first(
    alloc: Global,
    app: &App,
    graph: &CallGraph,
    roots: &[MethodNo],
) -> Result<Vec<MethodNo>, AllocError> {
    let mut walk = Walk::new(alloc, app, graph)?;
    for i in 0..roots.len() {
        walk.walk(roots[i])?;
    }
    Ok(walk.done)
}
