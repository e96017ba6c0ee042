use sp_laurent::Laurent;

/// The share of an earlier regular row in a ladder vector: the earlier row's rank, and its factor, which isn't 0.
#[derive(Drop)]
pub struct Share {
    pub rank: usize,
    pub alpha: Laurent,
}
