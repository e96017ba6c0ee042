// Where a certificate ends.
ghost use Rattle.sp_checking.specs.Law.{EndLaw};

/// A certificate goes on up to the first line that is exactly `end`, whether it is malformed or not, and none of its
/// other lines is answered. It takes and answers nothing: its contract is the theorem.
pub fn end_law()
    ensures { EndLaw }
{}
