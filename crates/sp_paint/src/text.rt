//! The smallest pieces of texts.
ghost use Rattle.std.specs.Prelude.{◌≡◌, ◌++◌, [], cond, codes, nat_eq, OnOk, OnErr};

use itoa::{Buffer, Integer};
use std::alloc::AllocError;

/// Appends the decimal text of a number.
pub(crate) fn put_number<N: Integer>(number: N, out: &mut Vec<u8>) -> Result<(), AllocError>
    ensures text { OnOk result (out.new.items ≡ out.old.items ++ N.text number) }
    ensures kept { OnErr result (out.new.items ≡ out.old.items) }
{
    out.extend_from_slice(Buffer::new().format(number).as_bytes())
}

/// Appends a comma where the item at this place isn't the first, which has place 0.
pub(crate) fn put_comma(place: usize, out: &mut Vec<u8>) -> Result<(), AllocError>
    ensures text { OnOk result (out.new.items ≡ out.old.items ++ cond (nat_eq place 0) [] (codes ",")) }
    ensures kept { OnErr result (out.new.items ≡ out.old.items) }
{
    if place == 0 {
        return Ok(());
    }
    Ok(out.push(b',')?)
}
