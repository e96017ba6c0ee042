ghost use Rattle.sp_defs.specs.Statements.{RowsLaw, RowContentLaw};
ghost use Rattle.sp_llt.specs.Existence.{RowsAreRegular};
ghost use Rattle.sp_outcome_law.specs.Needed.{NeededLaw};
ghost use Rattle.sp_row_bounds.specs.Counts.{CountLaw};
ghost use Rattle.sp_row_bounds.specs.Powers.{PowersLaw};

/// What holds of the regular row and the shares of every e-regular partition, for every e of at least 2. It takes and
/// answers nothing: its contract is the theorem. (Lascoux, Leclerc and Thibon, 1996; uniqueness: Lusztig, 1990, and
/// Kashiwara, 1991)
pub fn rows_law()
    // the regular row is the only vector of the span with 1 at its partition and vZ[v] at the other e-regular ones;
    // the shares are the only bar-invariant factors of regular rows that give the ladder vector back
    ensures law { RowsLaw }
    // a row exists exactly where the regular row is one
    ensures exists { RowsAreRegular }
    // whatever is in the regular row, and each partition with a share, has the partition's content
    ensures content { RowContentLaw }
    // the list of the partitions that one needs has exactly those
    ensures needed { NeededLaw }
    // the powers in regular rows, shares and all that is made on the way are within bounds
    ensures powers { PowersLaw }
    // how many partitions there are, and bounds on the number of the e-regular ones
    ensures counts { CountLaw }
{}
