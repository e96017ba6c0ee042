// What a tally has at one partition.
ghost use Rattle.std.specs.Prelude.{◌≡◌, ◌+◌, ◌*◌, ◌^◌, ◌<◌, ◌≤◌, ◌↔◌, [], IsTrue, IfOk, OnOk, IsErrOf, IfSome, IfNone};
ghost use Rattle.sp_defs.specs.Laurent.{size};
ghost use Rattle.sp_defs.specs.Within.{ProductWithin};
ghost use Rattle.sp_laurent.specs.Held.{IsHeld, power_limit};
ghost use Rattle.sp_slots.specs.Slot.{nothing, sized, grown, IsSlot};

use sp_fock::FockFault;
use sp_laurent::{Laurent, Term, size_of};
use std::alloc::{AllocError, Global};
use std::mem;

/// A polynomial, and a total that is at least its size.
#[derive(Drop)]
pub(crate) struct Slot {
    pub(crate) coefficient: Laurent,
    pub(crate) total: u128,
}

impl Slot {
    /// The slot of 0. It takes no memory.
    pub(crate) fn empty(alloc: Global) -> Slot
        ensures { result ≡ nothing }
    {
        Slot {
            coefficient: Laurent::zero(alloc),
            total: 0,
        }
    }

    /// The polynomial with these terms, with its size as the total.
    pub(crate) fn of_terms(alloc: Global, terms: &[Term]) -> Result<Slot, AllocError>
        requires { IsHeld terms.now }
        ensures { IfOk result (λ slot. slot ≡ sized terms.now) }
    {
        Ok(Slot {
            coefficient: Laurent::from_terms(alloc, terms)?,
            total: size_of(terms),
        })
    }

    /// A polynomial with its size as the total.
    pub(crate) fn sized(alloc: Global, coefficient: &Laurent) -> Result<Slot, AllocError>
        ensures { IfOk result (λ slot. slot ≡ sized coefficient.now) }
    {
        Ok(Slot {
            coefficient: coefficient.copy(alloc)?,
            total: coefficient.size(),
        })
    }

    pub(crate) fn is_zero(&self) -> bool
        ensures value { IsTrue result ↔ (self.now.coefficient ≡ []) }
        ensures held { IsHeld self.now.coefficient }
    {
        self.coefficient.terms().is_empty()
    }

    /// Adds `a` times `b`. `size_of_a` is the size of `a`, and `b` are the terms of a polynomial. The total grows by the
    /// product of their sizes: past the limit it is too large. The total covers the size of the polynomial, so no other
    /// check is needed.
    pub(crate) fn add_product(
        &mut self,
        alloc: Global,
        a: &Laurent,
        size_of_a: u128,
        b: &[Term],
        limit: u128,
    ) -> Result<(), FockFault>
        requires slot { IsSlot self.old }
        requires held { IsHeld b.now }
        requires size { size_of_a ≡ size a.now }
        requires most { limit < 2 ^ 127 }
        requires within { ProductWithin power_limit a.now b.now }
        ensures ok { OnOk result (self.new ≡ grown a.now self.old b.now) }
        ensures fits { OnOk result (self.old.total + size a.now * size b.now ≤ limit) }
        ensures too_large { IsErrOf result FockFault.TooLarge → limit < self.old.total + size a.now * size b.now }
    {
        let Some(total) = sum_within(self.total, size_of_a, size_of(b), limit) else {
            return Err(FockFault::TooLarge);
        };
        let coefficient = mem::replace(&mut self.coefficient, Laurent::zero(alloc));
        self.coefficient = coefficient.plus_product_within(a, b)?;
        self.total = total;
        Ok(())
    }
}

// The sum of a total and a product of sizes, where it is within the limit.
fn sum_within(total: u128, a: u128, b: u128, limit: u128) -> Option<u128>
    ensures some { IfSome result (λ sum. (sum ≡ total + a * b) × (sum ≤ limit)) }
    ensures none { IfNone result (limit < total + a * b) }
{
    let sum = a.checked_mul(b)?.checked_add(total)?;
    if sum <= limit { Some(sum) } else { None }
}
