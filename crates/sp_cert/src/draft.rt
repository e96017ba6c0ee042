// What the lines of a certificate behind the third one have said so far.

use crate::Column;
use crate::heads::Head;
use sp_laurent::Laurent;
use sp_llt::Share;
use sp_partition::Partition;

/// What the first three lines say, and the e-regular partitions of the degree, ascending.
#[derive(Drop)]
pub(crate) struct Header {
    pub version: u8,
    pub e: u8,
    pub degree: u8,
    pub regulars: Vec<Partition>,
}

/// A column that can go on: its partition with its rank, its shares, and its entries in the order of their lines, the
/// greatest partition first.
#[derive(Drop)]
pub(crate) struct Begun {
    pub mu: Partition,
    pub rank: usize,
    pub shares: Vec<Share>,
    pub entries: Vec<(Partition, Laurent)>,
}

/// All heads, with how many of them came, the columns that can't go on, and the one that can.
#[derive(Drop)]
pub(crate) struct Draft {
    pub header: Header,
    pub heads: Vec<Head>,
    pub passed: usize,
    pub columns: Vec<Column>,
    pub begun: Option<Begun>,
}
