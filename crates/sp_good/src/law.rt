ghost use Rattle.sp_defs.specs.Statements.{MoveLaw};
ghost use Rattle.sp_good.specs.Reduction.{IsReached, IsFinal, IsOnlyEnd};

/// For every e of at least 2 and every e-regular partition: the partition stays e-regular where a good node is removed
/// or a cogood node added, and has a good node of some residue unless it is empty. It takes and answers nothing: its
/// contract is the theorem. (Kleshchev, 1995)
pub fn move_law()
    ensures { MoveLaw }
{}

/// For every list of marks: taking out pairs, each an addable node with a removable node right after it, leads to the
/// reduced list, where no pair is left, and ends nowhere else. It takes and answers nothing.
pub fn signature_law()
    ensures reached { IsReached }
    ensures last { IsFinal }
    ensures only { IsOnlyEnd }
{}
