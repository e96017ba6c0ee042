// Faults of the source and of the sink, each at one place of the same two lines.
use sp_base::{MemSink, MemSource};
use sp_pool::Still;
use sp_session::{Status, run, run_alone};
use std::alloc::{AllocError, Global};
use std::test::Fail;
use std::vec;

/// The calls that fail, if any, and the room of the sink; and how a run then ends, with what is written.
#[derive(Clone, Copy)]
struct Fault {
    read: u64,
    write: u64,
    room: usize,
    status: Status,
    written: &'static str,
}

// Nothing fails.
const NONE: Fault = Fault {
    read: 0,
    write: 0,
    room: 1_000,
    status: Status::Done,
    written: "2,1^2\n1^2\n",
};

fn faults() -> [Fault; 6] {
    [
        NONE,
        Fault {
            read: 1,
            status: Status::ReadFault,
            written: "",
            ..NONE
        },
        Fault {
            read: 3,
            status: Status::ReadFault,
            ..NONE
        },
        Fault {
            write: 1,
            status: Status::WriteFault,
            written: "",
            ..NONE
        },
        Fault {
            write: 2,
            status: Status::WriteFault,
            written: "2,1^",
            ..NONE
        },
        Fault {
            room: 4,
            status: Status::WriteFault,
            written: "2,1^",
            ..NONE
        },
    ]
}

/// The two lines. The first read takes the first line, the second takes the other.
fn source_of(alloc: Global, fault: &Fault) -> Result<MemSource, AllocError> {
    let mut lines = Vec::new(alloc);
    lines.extend_from_slice(b"conjugate 3,1\nconjugate 2\n")?;
    Ok(MemSource::new(lines, 14, vec![in alloc; fault.read]?))
}

fn sink_of(alloc: Global, fault: &Fault) -> Result<MemSink, AllocError> {
    MemSink::new(alloc, fault.room, 4, vec![in alloc; fault.write]?)
}

#[test]
fn a_fault_ends_a_run_on_one_thread(rt: HostRuntime) -> Result<(), Fail> {
    let alloc = rt.alloc();
    let faults = faults();
    for fault in &faults {
        let mut source = source_of(alloc, fault)?;
        let mut sink = sink_of(alloc, fault)?;
        let status = run_alone(alloc, &[], &mut source, &mut sink, Vec::new(alloc));
        assert_eq!(rt; status, fault.status);
        assert_eq!(rt; sink.bytes(), fault.written.as_bytes());
    }
    Ok(())
}

#[test]
fn a_fault_ends_a_run_with_many_workers(rt: HostRuntime) -> Result<(), Fail> {
    let alloc = rt.alloc();
    let faults = faults();
    for fault in &faults {
        let mut source = source_of(alloc, fault)?;
        let mut sink = sink_of(alloc, fault)?;
        let painters = Vec::new(alloc);
        let status = run(&rt, alloc, &[], &mut source, &mut sink, painters, &Still);
        assert_eq!(rt; status, fault.status);
        assert_eq!(rt; sink.bytes(), fault.written.as_bytes());
    }
    Ok(())
}
