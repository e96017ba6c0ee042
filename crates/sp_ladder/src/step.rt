/// A ladder of a partition: its number, the residue of its nodes, and how many nodes of the partition stand on it.
#[derive(Clone, Copy, Debug, Default, PartialEq, Eq)]
pub struct Step {
    pub ladder: u16,
    pub residue: u8,
    pub count: u8,
}
