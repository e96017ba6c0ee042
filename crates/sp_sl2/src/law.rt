// Laws of restriction and induction, for all vectors.
ghost use Rattle.sp_sl2_law.specs.Commutator.{CommutatorLaw};
ghost use Rattle.sp_sl2_law.specs.Contents.{RestrictedContentLaw};
ghost use Rattle.sp_sl2_law.specs.Repeated.{NextPowerLaw, DividedPowerLaw};

/// The relation between restriction and induction of one node: for every e of at least 2, all residues i and j, every
/// vector v and every partition, `e_i f_j v - f_j e_i v` is 0 there where i and j differ. Where they are equal, it is
/// the polynomial of v there, times the balanced integer of the partition's addable i-nodes minus its removable ones.
/// It takes and answers nothing: its contract is the theorem. (Lascoux, Leclerc and Thibon, 1996)
pub fn commutator_law()
    ensures { CommutatorLaw }
{}

/// Restriction takes away one node of residue i: where `e_i v` isn't 0 at a partition, v isn't 0 at a partition of one
/// degree more that has one node of residue i more and as many of each other residue. It takes and answers nothing: its
/// contract is the theorem. (Lascoux, Leclerc and Thibon, 1996)
pub fn restriction_law()
    ensures { RestrictedContentLaw }
{}

/// Divided powers are what their name says: for every e of at least 2, every residue i, m and vector v, at every
/// partition, `f_i f_i^(m) v` is the balanced integer of m + 1 times `f_i^(m + 1) v`, and so `f_i` applied m times, for
/// an m of at least 1, is the balanced factorial of m times `f_i^(m) v`. It takes and answers nothing: its contract is
/// the theorem. (Lusztig, 1993; Lascoux, Leclerc and Thibon, 1996)
pub fn divided_power_law()
    ensures next { NextPowerLaw }
    ensures repeated { DividedPowerLaw }
{}
