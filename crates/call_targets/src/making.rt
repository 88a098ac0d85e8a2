//! The sets that calls share, made one named class after another, and their entries, counted.
ghost use Rattle.std.specs.Prelude.{◌≡◌, ◌<◌, ◌≤◌, ◌+◌, ◌*◌, IfErr, IfOk, IfSome, IfNone, length};
ghost use Rattle.ns_base.specs.Answers.{limit_of};
ghost use Rattle.ns_base.specs.declared.answers.Counted.TheVariants.{Targets};
ghost use Rattle.app_model.specs.Parts.{AppParts};
ghost use Rattle.class_graph.specs.Belongs.{IsClassGraph};
ghost use Rattle.call_targets.specs.Looking.{IsMaker};
ghost use Rattle.call_targets.specs.Made.{AreMadeBelow, AreSets, Fills, Grows, IsOver, IsToMake, all_rows};
ghost use Rattle.call_targets.specs.Numbered.{weigh};
ghost use Rattle.call_targets.specs.Sources.{IsIndex};

use crate::fault::TargetFault;
use crate::looking::Maker;
use crate::numbers::SetRow;
use crate::sources::Index;
use app_model::{App, TargetRow};
use class_graph::ClassGraph;
use ns_base::{Counted, limit};
use std::alloc::{AllocError, Global};
use std::marker::Model;

/// The sets by number, as far as they are made; `total` counts the entries of these, a set as often as
/// there are keys that have it.
#[derive(Drop)]
pub(crate) struct Sets {
    plan: Vec<SetRow>,
    rows: Vec<TargetRow>,
    made: Vec<bool>,
    total: u64,
}

impl Model for Sets {
    ghost use Rattle.call_targets.specs.Made.{SetsParts, HasPlaces};

    ghost Value = { SetsParts };

    ghost view = { λ s. record { plan = s.plan.items; rows = s.rows.items; made = s.made.items; total = s.total } };

    ghost invariant = { λ s. HasPlaces (record { plan = s.plan.items; rows = s.rows.items; made = s.made.items; total = s.total }) };
}

// A total with the entries of one more set, up to the limit.
fn added(total: u64, keys: u64, callees: usize) -> Option<u64>
    ensures sum { IfSome result (λ sum. sum ≡ total + keys * callees) }
    ensures few { IfSome result (λ sum. sum ≤ limit_of Targets) }
    ensures many { IfNone result (limit_of Targets < total + keys * callees) }
{
    let sum = total as u128 + keys as u128 * callees as u128;
    if sum <= limit(Counted::Targets) as u128 {
        Some(sum as u64)
    } else {
        None
    }
}

// The numbers of sets, by the types at which they are looked up. It only says what to look at.
fn order_of(alloc: Global, plan: &[SetRow]) -> Result<Vec<(Option<u32>, usize)>, AllocError> {
    let mut order = Vec::with_capacity(alloc, plan.len())?;
    for s in 0..plan.len() {
        order.push((plan[s].source.below, s))?;
    }
    order.sort_unstable();
    Ok(order)
}

impl Sets {
    fn begun(alloc: Global, plan: Vec<SetRow>) -> Result<Sets, AllocError>
        ensures { IfOk result (λ sets. (sets.plan ≡ plan.items) × ((app : AppParts) → AreSets app sets)) }
    {
        let mut rows = Vec::with_capacity(alloc, plan.len())?;
        let mut made = Vec::with_capacity(alloc, plan.len())?;
        for _place in 0..plan.len() {
            rows.push(TargetRow {
                callees: Vec::new(alloc),
                outside: false,
            })?;
            made.push(false)?;
        }
        Ok(Sets {
            plan,
            rows,
            made,
            total: 0,
        })
    }

    // Puts a set that was not made yet in its place.
    fn put(&mut self, s: usize, row: TargetRow) -> Result<(), TargetFault>
        requires { s < length self.old.plan }
        ensures ok { IfOk result (λ done. (app : AppParts) → IsToMake app self.old s row → Fills app s self.old self.new) }
        ensures over { IfErr result (λ fault. (app : AppParts) → IsToMake app self.old s row → IsOver app self.old.plan fault) }
    {
        let keys = self.plan[s].keys;
        match added(self.total, keys, row.callees.len()) {
            Some(total) => {
                self.rows[s] = row;
                self.made[s] = true;
                self.total = total;
                Ok(())
            }
            None => Err(TargetFault::Limit(Counted::Targets)),
        }
    }

    // Makes a set, if it is not made yet.
    fn fill(
        &mut self,
        alloc: Global,
        app: &App,
        classes: &ClassGraph,
        maker: &mut Maker,
        s: usize,
    ) -> Result<(), TargetFault>
        requires place { s < length self.old.plan }
        requires graph { IsClassGraph app.now classes.now }
        requires maker { IsMaker app.now maker.old }
        requires sets { AreSets app.now self.old }
        ensures ok { IfOk result (λ done. Fills app.now s self.old self.new × IsMaker app.now maker.new) }
        ensures over { IfErr result (IsOver app.now self.old.plan) }
    {
        if self.made[s] {
            return Ok(());
        }
        match maker.set(alloc, app, classes, self.plan[s].source) {
            Ok(row) => self.put(s, row),
            Err(AllocError) => Err(TargetFault::Memory),
        }
    }

    // Makes sets, those of one named class together.
    fn fill_in_order(
        &mut self,
        alloc: Global,
        app: &App,
        classes: &ClassGraph,
        maker: &mut Maker,
    ) -> Result<(), TargetFault>
        requires graph { IsClassGraph app.now classes.now }
        requires maker { IsMaker app.now maker.old }
        requires sets { AreSets app.now self.old }
        ensures ok { IfOk result (λ done. Grows app.now self.old self.new × IsMaker app.now maker.new) }
        ensures over { IfErr result (IsOver app.now self.old.plan) }
    {
        let Ok(order) = order_of(alloc, &self.plan) else {
            return Err(TargetFault::Memory);
        };
        for i in 0..order.len() {
            let s = order[i].1;
            if s < self.plan.len() {
                self.fill(alloc, app, classes, maker, s)?;
            }
        }
        Ok(())
    }

    // Makes all sets that are not made yet.
    fn fill_rest(
        &mut self,
        alloc: Global,
        app: &App,
        classes: &ClassGraph,
        maker: &mut Maker,
    ) -> Result<(), TargetFault>
        requires graph { IsClassGraph app.now classes.now }
        requires maker { IsMaker app.now maker.old }
        requires sets { AreSets app.now self.old }
        ensures ok { IfOk result (λ done. Grows app.now self.old self.new × AreMadeBelow self.new (length self.old.plan)) }
        ensures over { IfErr result (IsOver app.now self.old.plan) }
    {
        for s in 0..self.plan.len() {
            self.fill(alloc, app, classes, maker, s)?;
        }
        Ok(())
    }
}

/// The sets of a plan, or `Limit` where their entries are too many.
pub(crate) fn make_sets(
    alloc: Global,
    app: &App,
    classes: &ClassGraph,
    index: Index,
    plan: Vec<SetRow>,
) -> Result<Vec<TargetRow>, TargetFault>
    requires graph { IsClassGraph app.now classes.now }
    requires index { IsIndex app.now index }
    ensures rows { IfOk result (λ rows. rows.items ≡ all_rows app.now plan.items) }
    ensures few { IfOk result (λ rows. weigh app.now plan.items ≤ limit_of Targets) }
    ensures over { IfErr result (IsOver app.now plan.items) }
{
    let Ok(mut maker) = Maker::new(alloc, app, index) else {
        return Err(TargetFault::Memory);
    };
    let Ok(mut sets) = Sets::begun(alloc, plan) else {
        return Err(TargetFault::Memory);
    };
    sets.fill_in_order(alloc, app, classes, &mut maker)?;
    sets.fill_rest(alloc, app, classes, &mut maker)?;
    Ok(sets.rows)
}
