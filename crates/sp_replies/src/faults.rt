// The answers to lines that say no command.
ghost use Rattle.std.specs.Prelude.{◌≡◌, ◌++◌, OnOk};
ghost use Rattle.sp_replies.specs.Faults.{fault_line};

use sp_lang::LineFault;
use std::alloc::AllocError;

/// The line that answers a fault. An `Err` leaves `out` unspecified.
pub fn put_fault(fault: LineFault, out: &mut Vec<u8>) -> Result<(), AllocError>
    ensures { OnOk result (out.new.items ≡ out.old.items ++ fault_line fault) }
{
    out.extend_from_slice(line_of(fault))
}

fn line_of(fault: LineFault) -> &'static [u8]
    ensures { result.now ≡ fault_line fault }
{
    match fault {
        LineFault::UnknownCommand => b"error 1 unknown command\n",
        LineFault::WordCount => b"error 2 wrong number of words\n",
        LineFault::NotNumber => b"error 3 not a number\n",
        LineFault::BadPartition => b"error 4 not a partition\n",
        LineFault::BadE => b"error 5 e not in 2..64\n",
        LineFault::DegreePast => b"error 6 degree past 30\n",
        LineFault::NotRegular => b"error 7 not e-regular\n",
        LineFault::NotRestricted => b"error 7 not e-restricted\n",
        LineFault::BadResidue => b"error 8 residue not below e\n",
        LineFault::LongLine => b"error 12 line past 4096 bytes\n",
        LineFault::BadByte => b"error 13 byte not allowed\n",
        LineFault::DegreesDiffer => b"error 17 degrees differ\n",
        LineFault::UnknownConvention => b"error 19 unknown convention\n",
        LineFault::Memory => b"",
    }
}
