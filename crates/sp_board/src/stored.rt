/// A call that changed a board. A claim is of the next row.
#[derive(Clone, Copy, PartialEq, Eq, Debug)]
pub enum Stored {
    Claim { w: usize },
    Publish { w: usize, row: usize },
    Lose { w: usize, row: usize },
}
