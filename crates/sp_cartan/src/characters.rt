// Simple modules as sums of Specht modules.
ghost use Rattle.std.specs.Prelude.{◌≡◌, ◌<◌, ◌++◌, ◌∷◌, [], IfOk, OnOk, length, filter, nat_lt, pos};
ghost use Rattle.sp_defs.specs.Laurent.{monomial, value_at_one};
ghost use Rattle.sp_defs.specs.Power.{fock_vector};
ghost use Rattle.sp_partition.specs.Held.{IsHeld as IsHeldPartition};
ghost use Rattle.sp_laurent.specs.Held.{IsHeld as IsHeldPolynomial};
ghost use Rattle.sp_fock.specs.Held.{ArePairs};
ghost use Rattle.sp_cartan.specs.Characters.{simple_character as character_of, values_below};

use sp_fock::{Grid, Vector};
use sp_laurent::Laurent;
use sp_partition::{Partition, place_in};
use std::alloc::{AllocError, Global};

/// The simple module of `mu` as a sum of Specht modules, by the inverse of the square part of a decomposition matrix:
/// at each column it is the value at v = 1 of the cell in the line of `mu`, as a constant. Where `mu` is no line it is
/// 0. (Mathas, Iwahori-Hecke Algebras and Schur Algebras of the Symmetric Group, ch. 6)
pub fn simple_character(alloc: Global, inverse: &Grid, mu: &Partition) -> Result<Vector, AllocError>
    ensures { IfOk result (λ v. v ≡ fock_vector inverse.now.degree (character_of inverse.now mu.now)) }
{
    match place_in(inverse.lines(), mu) {
        Some(line) => {
            let values = values_in(alloc, inverse, line)?;
            Ok(Vector::from_pairs(inverse.degree(), values))
        }
        None => Ok(Vector::zero(alloc, inverse.degree())),
    }
}

// The columns, ascending, at which the cell of a line isn't 0 at v = 1, each with that value.
fn values_in(alloc: Global, g: &Grid, line: usize) -> Result<Vec<(Partition, Laurent)>, AllocError>
    requires { line < length g.now.lines }
    ensures values { IfOk result (λ values. values.items ≡ values_below g.now line (length g.now.columns)) }
    ensures held { IfOk result (λ values. ArePairs values.items) }
{
    let columns = g.columns();
    let mut values = Vec::new(alloc);
    for column in (0..columns.len()).rev() {
        let value = value_of(alloc, g.cell(line, column))?;
        push_nonzero(&mut values, &columns[column], value)?;
    }
    Ok(values)
}

// The value at v = 1, as a constant.
fn value_of(alloc: Global, p: &Laurent) -> Result<Laurent, AllocError>
    ensures { IfOk result (λ value. value ≡ monomial (pos 0) (value_at_one p.now)) }
{
    let _held = p.size();
    Laurent::monomial(alloc, p.at_one(), 0)
}

// Appends a polynomial at a partition, unless it is 0.
fn push_nonzero(
    pairs: &mut Vec<(Partition, Laurent)>,
    p: &Partition,
    polynomial: Laurent,
) -> Result<(), AllocError>
    ensures pairs { OnOk result
        (pairs.new.items ≡ pairs.old.items ++ filter (λ t. nat_lt 0 (length t.1)) ((p.now, polynomial) ∷ [])) }
    ensures held { IsHeldPartition p.now × IsHeldPolynomial polynomial }
{
    let _held = p.degree();
    if !polynomial.terms().is_empty() {
        pairs.push((*p, polynomial))?;
    }
    Ok(())
}
