ghost use Rattle.sp_core.specs.Law.{HoldsThroughout, IsShared, OpenComeLast, ClaimsRowsInOrder};
ghost use Rattle.sp_core.specs.Law.{WaitsAreForEarlier, LeastNeverWaits};
ghost use Rattle.sp_core.specs.Law.{NamesUnlessEnded, NamedCanMove, EndsSettled};
ghost use Rattle.sp_core.specs.Law.{EachChangeFalls, OnlyWaitsStay, FewChanges};

/// What holds after every list of events that are allowed one after the other from the opening, for every number of
/// rows and every number of workers that is at least 1. It takes and answers nothing: its contract is a theorem on
/// the machine, which is this project's own.
pub fn core_law()
    // row k is taken by w exactly where w is busy with row k, and its last is at most the row
    ensures shared { HoldsThroughout IsShared }
    ensures open_come_last { HoldsThroughout OpenComeLast }
    // no row is claimed twice
    ensures claims_in_order { ClaimsRowsInOrder }

    // who waits for row j is busy with a later row, and row j is taken by another worker
    ensures waits { HoldsThroughout WaitsAreForEarlier }
    // each row that the busy worker with the least row may ask for is answered
    ensures least_never_waits { HoldsThroughout LeastNeverWaits }

    // one worker is named by `can_go_on` unless all have ended, and it has an allowed event that changes the state
    ensures names_unless_ended { HoldsThroughout NamesUnlessEnded }
    ensures named_can_move { HoldsThroughout NamedCanMove }
    // where all have ended, each row is done or lost
    ensures ends_settled { HoldsThroughout EndsSettled }

    ensures each_change_falls { HoldsThroughout EachChangeFalls }
    ensures only_waits_stay { HoldsThroughout OnlyWaitsStay }
    ensures few_changes { FewChanges }
{}
