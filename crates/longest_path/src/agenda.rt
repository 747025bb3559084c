ghost use Rattle.std.specs.Prelude.{◌≡◌, [], true, false, IfOk, IfSome, IfNone};
ghost use Rattle.std.specs.BinaryHeap.{heap_items, heap_len, heap_capacity};
ghost use Rattle.fleet_base.specs.declared.geometry.Visit.{Visit};
ghost use Rattle.longest_path.specs.Cells.{is_marked, no_marks, put, HasCell, AreAlike};

use fleet_base::{Items, Memory, Visit};
use plan_graph::PlanGraph;
use std::alloc::Global;
use std::cmp::Reverse;
use std::collections::BinaryHeap;
use std::marker::Model;

/// A visit that waits, and the tick by which it is taken.
#[derive(Clone, Copy, Debug, PartialEq, Eq, PartialOrd, Ord)]
struct Waiting {
    tick: Reverse<u64>,
    visit: Visit,
}

/// Some visits of a plan, seen as a mark for each visit. The one that was added with the least tick is taken first.
#[derive(Drop)]
pub(crate) struct Agenda {
    heap: BinaryHeap<Waiting>,
    marks: Items<Items<bool>>,
}

impl Model for Agenda {
    ghost use Rattle.std.specs.Prelude.{List, Bool};

    ghost Value = { List (List Bool) };

    ghost use Rattle.longest_path.specs.Agendas.{IsAgenda};

    ghost view = { λ a. a.marks };

    ghost invariant = { IsAgenda };
}

impl Agenda {
    /// No visit, and room for each visit of a plan.
    pub(crate) fn new(alloc: Global, graph: &PlanGraph) -> Result<Agenda, Memory>
        ensures { IfOk result (λ agenda. agenda ≡ no_marks graph.now) }
    {
        let marks = no_marks(alloc, graph)?;
        let heap = empty_heap(alloc, graph.visit_count() as usize)?;
        Ok(Agenda { heap, marks })
    }

    /// Whether it has a visit.
    pub(crate) fn has(&self, v: Visit) -> bool
        ensures { result ≡ is_marked self.now v }
    {
        is_marked(&self.marks, v)
    }

    /// Adds a visit, which is to be taken by this tick. One that it has already stays as it is.
    pub(crate) fn add(&mut self, v: Visit, tick: u64)
        requires { HasCell self.old v }
        ensures { self.new ≡ put self.old v true }
    {
        let has = is_marked(&self.marks, v);
        self.marks.set_in(v.robot as usize, v.index as usize, true);
        if !has {
            let waiting = Waiting {
                tick: Reverse(tick),
                visit: v,
            };
            if self.heap.push(waiting).is_err() {
                unreachable!();
            }
        }
    }

    /// Takes out the visit of the least tick, if there is one.
    pub(crate) fn take(&mut self) -> Option<Visit>
        ensures some { IfSome result (λ v. is_marked self.old v ≡ true) }
        ensures rest { IfSome result (λ v. self.new ≡ put self.old v false) }
        ensures none { IfNone result ((v : Visit) → is_marked self.old v ≡ false) }
        ensures stays { IfNone result (self.new ≡ self.old) }
    {
        while let Some(next) = self.heap.pop() {
            let v = next.visit;
            if is_marked(&self.marks, v) {
                self.marks.set_in(v.robot as usize, v.index as usize, false);
                return Some(v);
            }
        }
        None
    }

    /// Takes all visits out.
    pub(crate) fn clear(&mut self)
        ensures none { (v : Visit) → is_marked self.new v ≡ false }
        ensures alike { AreAlike self.old self.new }
    {
        while self.take().is_some() {}
    }
}

/// The mark of a visit; none where there is no such visit.
fn is_marked(marks: &Items<Items<bool>>, v: Visit) -> bool
    ensures { result ≡ is_marked marks.now v }
{
    match marks.row(v.robot as usize).get(v.index as usize) {
        Some(mark) => *mark,
        None => false,
    }
}

/// No visit of a plan is marked.
fn no_marks(alloc: Global, graph: &PlanGraph) -> Result<Items<Items<bool>>, Memory>
    ensures { IfOk result (λ marks. marks ≡ no_marks graph.now) }
{
    let mut marks = Items::new(alloc);
    for robot in 0..graph.robots() {
        let row = vec![in alloc; false; graph.last(robot) as usize + 1]?;
        marks.push(Items::from_vec(row))?;
    }
    Ok(marks)
}

/// An empty heap with room for so many visits.
fn empty_heap(alloc: Global, count: usize) -> Result<BinaryHeap<Waiting>, Memory>
    ensures empty { IfOk result (λ heap. heap_items heap ≡ []) }
    ensures len { IfOk result (λ heap. heap_len heap ≡ 0) }
    ensures room { IfOk result (λ heap. heap_capacity heap ≡ count) }
{
    Ok(BinaryHeap::with_capacity(alloc, count)?)
}
