// Whether vectors and polynomials are the same.
ghost use Rattle.std.specs.Prelude.{◌≡◌, ◌↔◌, IsTrue};
ghost use Rattle.sp_defs.specs.Laurent.{one};

use sp_fock::Vector;
use sp_laurent::Laurent;
use sp_partition::Partition;

// Whether two vectors of one degree are the same.
pub(crate) fn is_same_vector(v: &Vector, w: &Vector) -> bool
    requires { v.now.degree ≡ w.now.degree }
    ensures { IsTrue result ↔ (v.now ≡ w.now) }
{
    are_same_pairs(v.pairs(), w.pairs())
}

// Whether the polynomial is 1.
pub(crate) fn is_one(polynomial: &Laurent) -> bool
    ensures { IsTrue result ↔ (polynomial.now ≡ one) }
{
    let terms = polynomial.terms();
    terms.len() == 1 && is_same_term(terms[0], (0, 1))
}

fn are_same_pairs(first: &[(Partition, Laurent)], second: &[(Partition, Laurent)]) -> bool
    ensures { IsTrue result ↔ (first.now ≡ second.now) }
{
    if first.len() != second.len() {
        return false;
    }
    for place in 0..first.len() {
        if !is_same_pair(&first[place], &second[place]) {
            return false;
        }
    }
    true
}

fn is_same_pair(first: &(Partition, Laurent), second: &(Partition, Laurent)) -> bool
    ensures { IsTrue result ↔ (first.now ≡ second.now) }
{
    first.0 == second.0 && are_same_terms(first.1.terms(), second.1.terms())
}

fn are_same_terms(first: &[(i32, i128)], second: &[(i32, i128)]) -> bool
    ensures { IsTrue result ↔ (first.now ≡ second.now) }
{
    if first.len() != second.len() {
        return false;
    }
    for place in 0..first.len() {
        if !is_same_term(first[place], second[place]) {
            return false;
        }
    }
    true
}

fn is_same_term(first: (i32, i128), second: (i32, i128)) -> bool
    ensures { IsTrue result ↔ (first ≡ second) }
{
    first.0 == second.0 && first.1 == second.1
}
