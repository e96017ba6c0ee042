/// Is told of each claim, and of each row that is about to be shown and published.
pub trait Gate: Sync {
    /// Right after the claim.
    fn at_claim(&self, worker: usize, row: usize);

    /// Right before the row is shown in its cell and published.
    fn at_publish(&self, worker: usize, row: usize);
}

/// Does nothing.
#[derive(Clone, Copy)]
pub struct Still;

impl Gate for Still {
    fn at_claim(&self, _worker: usize, _row: usize) {}

    fn at_publish(&self, _worker: usize, _row: usize) {}
}
