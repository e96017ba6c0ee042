use sp_core::{Answer, Event, NotAllowed, RowState, State, WorkerState, core_law};
use std::test::Fail;

#[test]
fn two_rows_and_two_workers(rt: HostRuntime) -> Result<(), Fail> {
    let mut s = State::open(rt.alloc(), 2, 2)?;
    assert_eq!(rt; s.step(Event::Claim { w: 0 }), Ok(Answer::Claimed(0)));
    assert_eq!(rt; s.step(Event::Claim { w: 1 }), Ok(Answer::Claimed(1)));
    assert_eq!(rt; s.row(1), RowState::Taken(1));
    assert_eq!(rt; s.worker(1), WorkerState::Busy { row: 1, last: 1 });
    assert_eq!(rt; s.step(Event::Ask { w: 1, j: 0 }), Ok(Answer::Waits));
    assert_eq!(rt; s.step(Event::Ask { w: 0, j: 0 }), Err(NotAllowed));
    assert_eq!(rt; s.step(Event::End { w: 0 }), Err(NotAllowed));
    assert_eq!(rt; s.can_go_on(), Some(0));
    assert_eq!(rt; s.step(Event::Publish { w: 0 }), Ok(Answer::Freed));
    assert_eq!(rt;
        s.step(Event::Ask { w: 1, j: 0 }),
        Ok(Answer::Seen(RowState::Done))
    );
    assert_eq!(rt; s.step(Event::Ask { w: 1, j: 0 }), Err(NotAllowed));
    assert_eq!(rt; s.step(Event::Publish { w: 1 }), Ok(Answer::Freed));
    assert_eq!(rt; s.step(Event::End { w: 0 }), Ok(Answer::Gone));
    assert_eq!(rt; s.step(Event::End { w: 1 }), Ok(Answer::Gone));
    assert_eq!(rt; s.can_go_on(), None);
    core_law();
    Ok(())
}
