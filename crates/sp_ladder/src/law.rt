ghost use Rattle.sp_defs.specs.Statements.{LadderLaw, LadderContentLaw};

/// What holds of the ladder vector of every e-regular partition, for every e of at least 2 and with no limit on the
/// degree. It takes and answers nothing: its contract is the theorem. (Lascoux, Leclerc and Thibon, 1996)
pub fn ladder_law()
    // 1 at its partition, which dominates all that is in it, and positive coefficients
    ensures law { LadderLaw }
    // all that is in it has the partition's content
    ensures content { LadderContentLaw }
{}
