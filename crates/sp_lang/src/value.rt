// What a word says.
ghost use Rattle.std.specs.Prelude.{◌≡◌, ◌-◌, ◌^◌, min, IfOk, IsTrue, is_none};
ghost use Rattle.std.specs.List.{list_any, list_all};
ghost use Rattle.std.specs.Option.{option_map};
ghost use Rattle.std.specs.Char.{is_digit};
ghost use Rattle.std.specs.Str.Parse.{digits_value};
ghost use Rattle.sp_partition.specs.Reading.{number_of, is_number as number_word, partition_of};
ghost use Rattle.sp_lang.specs.Words.{pieces};
ghost use Rattle.sp_lang.specs.Faults.{is_past as past};
ghost use Rattle.sp_lang.specs.Values.{value_of as value_in, number_said, byte_said, partition_said, exceeds as beyond};
ghost use Rattle.sp_lang.specs.Values.{fitting as fitting_of, all_fitting as all_fitting_of, convention_read};

use crate::Convention;
use crate::convention::convention_of;
use crate::verb::Place;
use sp_partition::{DEGREE_LIMIT, NotPartition, Partition};
use std::alloc::{AllocError, Global};

/// What was read of a word.
#[derive(Clone, Copy, Debug)]
pub enum Value {
    /// The number, or the greatest u64 where it is greater. None where the word says no number.
    Number(Option<u64>),
    /// The partition, or why there is none.
    Partition(Result<Partition, NotPartition>),
    /// What is known of the pieces of a quotient.
    Quotient(Pieces),
    /// Nothing is asked of a name.
    Name,
    /// The convention, where the word names one.
    Convention(Option<Convention>),
}

/// What is known of the pieces of a quotient before there is memory for them.
#[derive(Clone, Copy, Debug)]
pub struct Pieces {
    /// Whether one says no partition.
    pub any_shapeless: bool,
    /// Whether one says a partition past the limit.
    pub any_past: bool,
}

/// What a word says in its place.
pub(crate) fn value_of(place: Place, word: &[u8]) -> Value
    ensures { result ≡ value_in place word.now }
{
    match place {
        Place::E | Place::Residue | Place::Count | Place::Degree | Place::Weight => {
            Value::Number(number(word))
        }
        Place::Partition
        | Place::Peer
        | Place::Grown
        | Place::Factor
        | Place::Label
        | Place::Heading => Value::Partition(Partition::parse(word)),
        Place::Quotient => Value::Quotient(Pieces {
            any_shapeless: any_shapeless(word),
            any_past: any_past(word),
        }),
        Place::Name => Value::Name,
        Place::Convention => Value::Convention(convention_of(word)),
    }
}

impl Value {
    /// The number, or 0 where there is none.
    pub(crate) fn number(&self) -> u64
        ensures { result ≡ number_said self.now }
    {
        match *self {
            Value::Number(Some(n)) => n,
            _ => 0,
        }
    }

    /// The number, or 255 where it is greater, or 0 where there is none.
    pub(crate) fn byte(&self) -> u8
        ensures { result ≡ byte_said self.now }
    {
        self.number().min(255) as u8
    }

    /// The partition, or the empty one where there is none.
    pub(crate) fn partition(&self) -> Partition
        ensures { result ≡ partition_said self.now }
    {
        match *self {
            Value::Partition(Ok(p)) => p,
            _ => Partition::empty(),
        }
    }

    /// The convention, or the regular one where there is none.
    pub(crate) fn convention(&self) -> Convention
        ensures { result ≡ convention_read self.now }
    {
        match *self {
            Value::Convention(Some(convention)) => convention,
            _ => Convention::Regular,
        }
    }
}

// The number that a word says, or the greatest u64 where it is greater.
fn number(word: &[u8]) -> Option<u64>
    ensures { result ≡ option_map (λ n. min n (2 ^ 64 - 1)) (number_of word.now) }
{
    if is_number(word) {
        Some(counted(word))
    } else {
        None
    }
}

// Whether these are digits, of which the first is 0 only where it is the one digit.
fn is_number(word: &[u8]) -> bool
    ensures { result ≡ number_word word.now }
{
    match word {
        [] => false,
        [first, rest @ ..] => are_digits(word) && (rest.is_empty() || *first != b'0'),
    }
}

fn are_digits(word: &[u8]) -> bool
    ensures { result ≡ list_all (λ c. is_digit c 10) word.now }
{
    word.iter().all(|byte| byte.is_ascii_digit())
}

// What the digits count, or the greatest u64 where that is greater.
fn counted(digits: &[u8]) -> u64
    requires { IsTrue (number_word digits.now) }
    ensures { result ≡ min (digits_value 10 digits.now) (2 ^ 64 - 1) }
{
    let mut value = 0u64;
    for digit in digits {
        value = value
            .saturating_mul(10)
            .saturating_add(u64::from(*digit - b'0'));
    }
    value
}

/// Whether this is past the limit, with so many nodes more.
pub(crate) fn exceeds(more: u8, read: &Result<Partition, NotPartition>) -> bool
    ensures { result ≡ beyond more read.now }
{
    match read {
        Ok(p) => u16::from(p.degree()) + u16::from(more) > u16::from(DEGREE_LIMIT),
        Err(NotPartition::PastCapacity) => true,
        Err(NotPartition::Shape) => false,
    }
}

// Whether a piece of the word says no partition.
fn any_shapeless(word: &[u8]) -> bool
    ensures { result ≡ list_any (λ piece. is_none (partition_of piece)) (pieces word.now) }
{
    word.split(|byte| *byte == b'|')
        .any(|piece| is_shapeless(piece))
}

fn is_shapeless(piece: &[u8]) -> bool
    ensures { result ≡ is_none (partition_of piece.now) }
{
    matches!(Partition::parse(piece), Err(NotPartition::Shape))
}

// Whether a piece of the word says a partition past the limit.
fn any_past(word: &[u8]) -> bool
    ensures { result ≡ list_any (past 0) (pieces word.now) }
{
    word.split(|byte| *byte == b'|').any(|piece| is_past(piece))
}

fn is_past(piece: &[u8]) -> bool
    ensures { result ≡ past 0 piece.now }
{
    exceeds(0, &Partition::parse(piece))
}

/// What the pieces of a word say.
pub(crate) fn all_fitting(alloc: Global, word: &[u8]) -> Result<Vec<Partition>, AllocError>
    ensures { IfOk result (λ list. list.items ≡ all_fitting_of word.now) }
{
    word.split(|byte| *byte == b'|')
        .map(|piece| fitting(piece))
        .collect(alloc)
}

fn fitting(piece: &[u8]) -> Partition
    ensures { result ≡ fitting_of piece.now }
{
    Partition::parse(piece).unwrap_or_default()
}
