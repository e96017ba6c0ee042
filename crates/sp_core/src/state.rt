ghost use Rattle.std.specs.Prelude.{◌≡◌, ℕ, ◌<◌, ◌≤◌, ◌↔◌, length, slice_get, slice_set, IfOk, OnErr, MatchOption};
ghost use Rattle.sp_core.specs.Machine.{opening, step_of, mark_of, first_open, Follows};
ghost use Rattle.sp_core.specs.Law.{GoesOn, AllEnded, NoneBusy, NoneFree, IsLeastFree, IsFirstLeastBusy};
ghost use Rattle.sp_core.specs.Search.{IsBetter};

use crate::{Answer, Event, NotAllowed, RowState, WorkerState};
use std::alloc::{AllocError, Global};
use std::marker::Model;

/// What is known of each row, and what each worker does.
#[derive(Drop)]
pub struct State {
    rows: Vec<RowState>,
    workers: Vec<WorkerState>,
}

impl Model for State {
    ghost use Rattle.sp_core.specs.Machine.{World, world};

    ghost Value = { World };

    ghost view = { λ s. world s.rows.items s.workers.items };
}

fn least_open(rows: &[RowState]) -> Option<usize>
    ensures { result ≡ first_open rows.now }
{
    rows.iter().position(|row| matches!(row, RowState::Open))
}

fn least_free(workers: &[WorkerState]) -> Option<usize>
    ensures { MatchOption result (NoneFree workers.now) (IsLeastFree workers.now) }
{
    for (w, worker) in workers.iter().enumerate() {
        if let WorkerState::Free = worker {
            return Some(w);
        }
    }
    None
}

fn least_busy(workers: &[WorkerState]) -> Option<usize>
    ensures { MatchOption result (NoneBusy workers.now) (IsFirstLeastBusy workers.now) }
{
    let mut best: Option<(usize, usize)> = None;
    for (w, worker) in workers.iter().enumerate() {
        if let WorkerState::Busy { row, last: _ } = worker {
            best = better(best, w, *row);
        }
    }
    match best {
        Some((w, _)) => Some(w),
        None => None,
    }
}

/// Worker `w` with its row, unless the best so far has a row that is no later.
fn better(best: Option<(usize, usize)>, w: usize, row: usize) -> Option<(usize, usize)>
    ensures { IsBetter best w row result }
{
    match best {
        Some(b) if b.1 <= row => Some(b),
        _ => Some((w, row)),
    }
}

/// No run leads to a row out of range. There nothing is written.
#[tactic(auto, using(std::proofs::lemmas::List::set_past))]
fn write_mark(rows: &mut [RowState], row: usize, mark: RowState)
    ensures { rows.new ≡ slice_set rows.old row mark }
{
    if row < rows.len() {
        rows[row] = mark;
    }
}

impl State {
    /// All rows are open, and all workers free.
    pub fn open(alloc: Global, rows: usize, workers: usize) -> Result<State, AllocError>
        requires { 1 ≤ workers }
        ensures { IfOk result (λ s. s ≡ opening rows workers) }
    {
        Ok(State {
            rows: vec![in alloc; RowState::Open; rows]?,
            workers: vec![in alloc; WorkerState::Free; workers]?,
        })
    }

    /// One event. Where it is not allowed, or there is no such worker, the state is as before.
    pub fn step(&mut self, event: Event) -> Result<Answer, NotAllowed>
        ensures allowed { IfOk result (λ answer. step_of self.old event ≡ Some (self.new, answer)) }
        ensures not_allowed { OnErr result (step_of self.old event ≡ None) }
        ensures unchanged { OnErr result (self.new ≡ self.old) }
    {
        match event {
            Event::Claim { w } => self.claim(w),
            Event::Ask { w, j } => self.ask(w, j),
            Event::Publish { w } => self.mark(w, RowState::Done),
            Event::Lose { w } => self.mark(w, RowState::Lost),
            Event::End { w } => self.end(w),
        }
    }

    fn claim(&mut self, w: usize) -> Result<Answer, NotAllowed>
        ensures { Follows (step_of self.old (Event.Claim w)) self.old self.new result }
    {
        if w >= self.workers.len() {
            return Err(NotAllowed);
        }
        let WorkerState::Free = self.workers[w] else {
            return Err(NotAllowed);
        };
        let Some(k) = least_open(&self.rows) else {
            return Err(NotAllowed);
        };
        self.rows[k] = RowState::Taken(w);
        self.workers[w] = WorkerState::Busy { row: k, last: k };
        Ok(Answer::Claimed(k))
    }

    fn ask(&mut self, w: usize, j: usize) -> Result<Answer, NotAllowed>
        ensures { Follows (step_of self.old (Event.Ask w j)) self.old self.new result }
    {
        if w >= self.workers.len() {
            return Err(NotAllowed);
        }
        let WorkerState::Busy { row, last } = self.workers[w] else {
            return Err(NotAllowed);
        };
        if j >= last {
            return Err(NotAllowed);
        }
        // no run leads to a `last` past the rows
        if j >= self.rows.len() {
            return Ok(Answer::Waits);
        }
        let mark = self.rows[j];
        match mark {
            RowState::Done | RowState::Lost => {
                self.workers[w] = WorkerState::Busy { row, last: j };
                Ok(Answer::Seen(mark))
            }
            RowState::Open | RowState::Taken(_) => Ok(Answer::Waits),
        }
    }

    /// Gives the row of worker `w` the mark, and sets the worker free.
    fn mark(&mut self, w: usize, mark: RowState) -> Result<Answer, NotAllowed>
        ensures { Follows (mark_of self.old w mark (slice_get self.old.workers w)) self.old self.new result }
    {
        if w >= self.workers.len() {
            return Err(NotAllowed);
        }
        let WorkerState::Busy { row, last: _ } = self.workers[w] else {
            return Err(NotAllowed);
        };
        write_mark(&mut self.rows, row, mark);
        self.workers[w] = WorkerState::Free;
        Ok(Answer::Freed)
    }

    fn end(&mut self, w: usize) -> Result<Answer, NotAllowed>
        ensures { Follows (step_of self.old (Event.End w)) self.old self.new result }
    {
        if w >= self.workers.len() {
            return Err(NotAllowed);
        }
        let WorkerState::Free = self.workers[w] else {
            return Err(NotAllowed);
        };
        if least_open(&self.rows).is_some() {
            return Err(NotAllowed);
        }
        self.workers[w] = WorkerState::Ended;
        Ok(Answer::Gone)
    }

    /// What is known of row `j`.
    pub fn row(&self, j: usize) -> RowState
        requires { j < length self.now.rows }
        ensures { slice_get self.now.rows j ≡ Some result }
    {
        self.rows[j]
    }

    /// What worker `w` does.
    pub fn worker(&self, w: usize) -> WorkerState
        requires { w < length self.now.workers }
        ensures { slice_get self.now.workers w ≡ Some result }
    {
        self.workers[w]
    }

    /// A worker with an allowed event that changes the state: the busy one with the least row, and where none is busy
    /// the least free one.
    pub fn can_go_on(&self) -> Option<usize>
        ensures named { (w : ℕ) → (result ≡ Some w) ↔ GoesOn self.now.workers w }
        ensures none { (result ≡ None) ↔ AllEnded self.now.workers }
    {
        match least_busy(&self.workers) {
            Some(w) => Some(w),
            None => least_free(&self.workers),
        }
    }
}
