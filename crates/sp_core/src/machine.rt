/// What is known of a row.
#[derive(Clone, Copy, PartialEq, Eq, Debug)]
pub enum RowState {
    /// Nobody has claimed it yet.
    Open,
    /// The worker with this number is busy with it.
    Taken(usize),
    Done,
    /// Its worker gave it up.
    Lost,
}

/// What a worker does.
#[derive(Clone, Copy, PartialEq, Eq, Debug)]
pub enum WorkerState {
    Free,
    /// It works on `row`, and may ask for the rows below `last`.
    Busy { row: usize, last: usize },
    Ended,
}

/// One atomic action of worker `w`. Rows and workers are counted from 0.
#[derive(Clone, Copy, PartialEq, Eq, Debug)]
pub enum Event {
    /// Take the least open row. Allowed to a free worker while a row is open.
    Claim { w: usize },
    /// Look at row `j`. Allowed to a busy worker whose `last` is above `j`.
    Ask { w: usize, j: usize },
    /// Finish the own row. Allowed to a busy worker.
    Publish { w: usize },
    /// Give the own row up. Allowed to a busy worker.
    Lose { w: usize },
    /// Go home. Allowed to a free worker once no row is open.
    End { w: usize },
}

/// What an allowed event is answered.
#[derive(Clone, Copy, PartialEq, Eq, Debug)]
pub enum Answer {
    /// The row that a claim took.
    Claimed(usize),
    /// The row that was asked for is done or lost.
    Seen(RowState),
    /// The row that was asked for is neither done nor lost yet.
    Waits,
    /// After `Publish` and `Lose`.
    Freed,
    /// After `End`.
    Gone,
}

/// The event is not allowed in this state, or there is no such worker.
#[derive(Clone, Copy, PartialEq, Eq, Debug)]
pub struct NotAllowed;
