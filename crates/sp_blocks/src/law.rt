ghost use Rattle.sp_block_law.specs.Blocks.{BlockLaw, RowBlockLaw};

/// What holds of blocks, for every e of at least 2 and all partitions. It takes and answers nothing: its contract is
/// the theorem. (Nakayama, 1940; James and Kerber, The Representation Theory of the Symmetric Group, 2.7.41)
pub fn block_law()
    // two partitions of one degree have the same core exactly where they have as many nodes of each residue
    ensures law { BlockLaw }
    // so a regular row, the partitions of its shares, those that are asked for on the way to it and all that it needs
    // are in one block
    ensures rows { RowBlockLaw }
{}
