ghost use Rattle.sp_board.specs.Law.{EachIsClaimedOnce, OthersAreAbsent};

/// What holds of every history that can be replayed, and so of every board's. It takes and answers nothing: its
/// contract is a theorem on histories, which is this project's own.
pub fn history_law()
    // each row below `next` has exactly one claim, and at most one publish or loss, after the claim
    ensures claimed_once { EachIsClaimedOnce }
    // no entry is of another row
    ensures others { OthersAreAbsent }
{}
