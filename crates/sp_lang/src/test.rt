// What can be wrong with the words of a command.
ghost use Rattle.std.specs.Prelude.{◌≡◌, ◌≤◌};
ghost use Rattle.sp_lang.specs.Values.{any_given, fails as wrong, is_missing as missing, is_shapeless as shapeless};
ghost use Rattle.sp_lang.specs.Values.{is_bad_e as bad_e, is_large as large, is_uneven as uneven};
ghost use Rattle.sp_lang.specs.Values.{is_large_together as large_together};
ghost use Rattle.sp_lang.specs.Values.{is_bad_residue as bad_residue, is_irregular as irregular};
ghost use Rattle.sp_lang.specs.Values.{is_bad_heading as bad_heading, is_bad_convention as bad_convention};

use crate::Convention;
use crate::given::Given;
use crate::value::{Value, exceeds};
use crate::verb::Place;
use sp_partition::{DEGREE_LIMIT, NotPartition};

/// What is asked of the words.
#[derive(Clone, Copy)]
pub enum Test {
    /// That numbers are numbers.
    Number,
    /// That partitions are partitions.
    Partition,
    /// That e is from 2 to 64.
    E,
    /// That no degree is past the limit. Grown partitions have so many nodes more.
    Degree(u8),
    /// That no factor is past the limit, with so many nodes more.
    Together(u8),
    /// That peers are of this degree.
    Peer(u8),
    /// That residues are below this e.
    Residue(u8),
    /// That labels are e-regular, for this e of at least 2.
    Regular(u8),
    /// That headings are labels in this convention, for this e of at least 2.
    Heading(Convention, u8),
    /// That conventions are conventions.
    Convention,
}

/// Whether a word is wrong in its place.
pub(crate) fn any_fails(test: Test, given: &[Given]) -> bool
    ensures { result ≡ any_given (wrong test) given.now }
{
    given.iter().any(|one| fails(test, one.place, &one.value))
}

fn fails(test: Test, place: Place, value: &Value) -> bool
    ensures { result ≡ wrong test place value.now }
{
    match test {
        Test::Number => is_missing(value),
        Test::Partition => is_shapeless(value),
        Test::E => is_bad_e(place, value),
        Test::Degree(more) => is_large(more, place, value),
        Test::Together(more) => is_large_together(more, place, value),
        Test::Peer(degree) => is_uneven(degree, place, value),
        Test::Residue(e) => is_bad_residue(e, place, value),
        Test::Regular(e) => is_irregular(e, place, value),
        Test::Heading(convention, e) => is_bad_heading(convention, e, place, value),
        Test::Convention => is_bad_convention(value),
    }
}

fn is_missing(value: &Value) -> bool
    ensures { result ≡ missing value.now }
{
    match value {
        Value::Number(n) => n.is_none(),
        _ => false,
    }
}

fn is_shapeless(value: &Value) -> bool
    ensures { result ≡ shapeless value.now }
{
    match value {
        Value::Partition(Err(NotPartition::Shape)) => true,
        Value::Quotient(pieces) => pieces.any_shapeless,
        _ => false,
    }
}

fn is_bad_e(place: Place, value: &Value) -> bool
    ensures { result ≡ bad_e place value.now }
{
    match (place, value) {
        (Place::E, Value::Number(Some(e))) => *e < 2 || *e > 64,
        _ => false,
    }
}

fn is_large(more: u8, place: Place, value: &Value) -> bool
    ensures { result ≡ large more place value.now }
{
    match (place, value) {
        (Place::Degree, Value::Number(Some(n))) => *n > u64::from(DEGREE_LIMIT),
        (Place::Grown, Value::Partition(read)) => exceeds(more, read),
        (_, Value::Partition(read)) => exceeds(0, read),
        (_, Value::Quotient(pieces)) => pieces.any_past,
        _ => false,
    }
}

fn is_large_together(more: u8, place: Place, value: &Value) -> bool
    ensures { result ≡ large_together more place value.now }
{
    match (place, value) {
        (Place::Factor, Value::Partition(read)) => exceeds(more, read),
        _ => false,
    }
}

fn is_uneven(degree: u8, place: Place, value: &Value) -> bool
    ensures { result ≡ uneven degree place value.now }
{
    match (place, value) {
        (Place::Peer, Value::Partition(Ok(p))) => p.degree() != degree,
        _ => false,
    }
}

fn is_bad_residue(e: u8, place: Place, value: &Value) -> bool
    ensures { result ≡ bad_residue e place value.now }
{
    match (place, value) {
        (Place::Residue, Value::Number(Some(i))) => *i >= u64::from(e),
        _ => false,
    }
}

fn is_irregular(e: u8, place: Place, value: &Value) -> bool
    ensures { result ≡ irregular e place value.now }
{
    match (place, value) {
        (Place::Label, Value::Partition(Ok(p))) => 2 <= e && !p.is_regular(e),
        _ => false,
    }
}

fn is_bad_heading(convention: Convention, e: u8, place: Place, value: &Value) -> bool
    ensures { result ≡ bad_heading convention e place value.now }
{
    match (place, value) {
        (Place::Heading, Value::Partition(Ok(p))) => 2 <= e && !convention.label(p).is_regular(e),
        _ => false,
    }
}

fn is_bad_convention(value: &Value) -> bool
    ensures { result ≡ bad_convention value.now }
{
    match value {
        Value::Convention(read) => read.is_none(),
        _ => false,
    }
}
