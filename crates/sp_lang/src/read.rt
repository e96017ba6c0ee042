// A line as a command.
ghost use Rattle.std.specs.Prelude.{◌≡◌, ◌≢◌, IfOk, OnErr, find, length};
ghost use Rattle.std.specs.List.{list_all};
ghost use Rattle.sp_lang.specs.Words.{words, is_allowed as allowed};
ghost use Rattle.sp_lang.specs.Convention.{convention_said, label_fault as fault_in};
ghost use Rattle.sp_lang.specs.Commands.{verb_of as verb_named, places_of, word_at as word_in, weight as weight_of};
ghost use Rattle.sp_lang.specs.Reading.{reading, said as said_by, said_behind as said_behind_by};
ghost use Rattle.sp_lang.specs.Given.{IsCommand, WantsMemory};
ghost use Rattle.sp_lang.specs.Values.{read_all, words_of, any_given, fails, tests_of as tests_by, first_failing};
ghost use Rattle.sp_lang.specs.Values.{given_command};

use crate::given::{Given, read_words, value_at, word_at};
use crate::test::{Test, any_fails};
use crate::value::all_fitting;
use crate::verb::{VERBS, Verb};
use crate::words::split_word;
use crate::{Command, Convention, LINE_LIMIT, LineFault, Name};
use sp_partition::Items;
use std::alloc::{AllocError, Global};

/// The one command that a line says, or its first fault, under the convention in force.
///
/// The line is without its newline. Faults are looked for in this order: `LongLine`, `BadByte`, `UnknownCommand`,
/// `WordCount`, `NotNumber`, `BadPartition`, `BadE`, `DegreePast`, `DegreesDiffer`, `BadResidue`, `NotRegular` or
/// `NotRestricted`, `UnknownConvention`. The convention decides what `ladder` and `row` take, and `NotRestricted` comes
/// of these alone. `Memory` comes where the pieces of a quotient find none.
pub fn read_command(
    alloc: Global,
    convention: Convention,
    line: &[u8],
) -> Result<Command<'_>, LineFault>
    ensures reads { result ≢ Err LineFault.Memory → result ≡ reading convention line.now }
    ensures command { IfOk result (IsCommand convention) }
    ensures memory { result ≡ Err LineFault.Memory → WantsMemory (reading convention line.now) }
{
    if line.len() > LINE_LIMIT {
        return Err(LineFault::LongLine);
    }
    if !are_allowed(line) {
        return Err(LineFault::BadByte);
    }
    said(alloc, convention, line)
}

fn are_allowed(line: &[u8]) -> bool
    ensures { result ≡ list_all allowed line.now }
{
    line.iter().all(|byte| is_allowed(*byte))
}

fn is_allowed(byte: u8) -> bool
    ensures { result ≡ allowed byte }
{
    b' ' <= byte && byte <= b'~' || byte == b'\t'
}

fn said(alloc: Global, convention: Convention, line: &[u8]) -> Result<Command<'_>, LineFault>
    ensures reads { result ≢ Err LineFault.Memory → result ≡ said_by convention (words line.now) }
    ensures memory { result ≡ Err LineFault.Memory → WantsMemory (said_by convention (words line.now)) }
{
    let Some((first, rest)) = split_word(line) else {
        return Ok(Command::Nothing);
    };
    if first.first() == Some(&b'#') {
        return Ok(Command::Nothing);
    }
    match verb_of(first) {
        Some(verb) => said_behind(alloc, convention, verb, rest),
        None => Err(LineFault::UnknownCommand),
    }
}

fn verb_of(word: &[u8]) -> Option<Verb>
    ensures { result ≡ verb_named word.now }
{
    VERBS.iter().find(|verb| verb.name() == word).copied()
}

fn said_behind(
    alloc: Global,
    convention: Convention,
    verb: Verb,
    rest: &[u8],
) -> Result<Command<'_>, LineFault>
    ensures reads { result ≢ Err LineFault.Memory → result ≡ said_behind_by convention (Some verb) (words rest.now) }
    ensures memory { result ≡ Err LineFault.Memory
        → WantsMemory (said_behind_by convention (Some verb) (words rest.now)) }
{
    match read_words(verb.places(), rest) {
        Some(given) => said_by_all(alloc, convention, verb, given.as_slice()),
        None => Err(LineFault::WordCount),
    }
}

// What as many words say as there are places.
fn said_by_all<'a>(
    alloc: Global,
    convention: Convention,
    verb: Verb,
    given: &[Given<'a>],
) -> Result<Command<'a>, LineFault>
    requires count { length given.now ≡ length (places_of verb) }
    requires read { given.now ≡ read_all (places_of verb) (words_of given.now) }
    ensures reads { result ≢ Err LineFault.Memory
        → result ≡ said_behind_by convention (Some verb) (words_of given.now) }
    ensures memory { result ≡ Err LineFault.Memory
        → WantsMemory (said_behind_by convention (Some verb) (words_of given.now)) }
{
    if let Some(fault) = first_fault(convention, given) {
        return Err(fault);
    }
    match command(alloc, verb, given) {
        Ok(command) => Ok(command),
        Err(_) => Err(LineFault::Memory),
    }
}

// The first fault of as many words as there are places.
fn first_fault(convention: Convention, given: &[Given]) -> Option<LineFault>
    ensures { result ≡ first_failing convention given.now }
{
    let tests = tests_of(convention, given);
    match first_of(&tests, given) {
        Some((_, fault)) => Some(fault),
        None => None,
    }
}

// The tests in their order, and the faults that they find.
fn tests_of(convention: Convention, given: &[Given]) -> [(Test, LineFault); 10]
    ensures { result ≡ tests_by convention given.now }
{
    let first = value_at(given, 0);
    let third = value_at(given, 2);
    let degree = first.partition().degree();
    [
        (Test::Number, LineFault::NotNumber),
        (Test::Partition, LineFault::BadPartition),
        (Test::E, LineFault::BadE),
        (Test::Degree(third.byte()), LineFault::DegreePast),
        (Test::Together(degree), LineFault::DegreePast),
        (Test::Peer(degree), LineFault::DegreesDiffer),
        (Test::Residue(first.byte()), LineFault::BadResidue),
        (Test::Regular(first.byte()), LineFault::NotRegular),
        (
            Test::Heading(convention, first.byte()),
            label_fault(convention),
        ),
        (Test::Convention, LineFault::UnknownConvention),
    ]
}

// What is said of a heading that is no label.
fn label_fault(convention: Convention) -> LineFault
    ensures { result ≡ fault_in convention }
{
    match convention {
        Convention::Regular => LineFault::NotRegular,
        Convention::Restricted => LineFault::NotRestricted,
    }
}

// The first of the tests that finds a word wrong, and its fault.
fn first_of(tests: &[(Test, LineFault)], given: &[Given]) -> Option<(Test, LineFault)>
    ensures { result ≡ find (λ test. any_given (fails test.0) given.now) tests.now }
{
    tests.iter().find(|test| any_fails(test.0, given)).copied()
}

// The command, where its words have no fault.
fn command<'a>(alloc: Global, verb: Verb, given: &[Given<'a>]) -> Result<Command<'a>, AllocError>
    requires { given.now ≡ read_all (places_of verb) (words_of given.now) }
    ensures exact { IfOk result (λ command. command ≡ given_command verb given.now) }
    ensures memory { OnErr result (verb ≡ Verb.Combine) }
{
    let number = |place| value_at(given, place).byte();
    let partition = |place| value_at(given, place).partition();
    Ok(match verb {
        Verb::Partitions => Command::Partitions(number(0)),
        Verb::Regular => Command::Regular(number(0), number(1)),
        Verb::Conjugate => Command::Conjugate(partition(0)),
        Verb::Dominates => Command::Dominates(partition(0), partition(1)),
        Verb::Diagram => Command::Diagram(number(0), partition(1)),
        Verb::Hooks => Command::Hooks(partition(0)),
        Verb::Content => Command::Content(number(0), partition(1)),
        Verb::Core => Command::Core(number(0), partition(1)),
        Verb::Combine => {
            let quotient = all_fitting(alloc, word_at(given, 2))?;
            Command::Combine(number(0), partition(1), Items::of(quotient))
        }
        Verb::Abacus => Command::Abacus(number(0), partition(1)),
        Verb::Good => Command::Good(number(0), partition(1)),
        Verb::Path => Command::Path(number(0), partition(1)),
        Verb::Mullineux => Command::Mullineux(number(0), partition(1)),
        Verb::Induce => Command::Induce(number(0), number(1), number(2), partition(3)),
        Verb::Ladders => Command::Ladders(number(0), partition(1)),
        Verb::Ladder => Command::Ladder(number(0), partition(1)),
        Verb::Row => Command::Row(number(0), partition(1)),
        Verb::Crystal => Command::Crystal(number(0), number(1)),
        Verb::Decomposition => Command::Decomposition(number(0), number(1)),
        Verb::Block => Command::Block(number(0), partition(1), weight(given)),
        Verb::Painter => Command::Painter(Name::of(word_at(given, 0))),
        Verb::Jantzen => Command::Jantzen(number(0), partition(1)),
        Verb::Schaper => Command::Schaper(number(0), number(1)),
        Verb::Dim => Command::Dim(partition(0)),
        Verb::Dims => Command::Dims(number(0), number(1)),
        Verb::Certificate => Command::Certificate(number(0), number(1)),
        Verb::Check => Command::Check,
        Verb::Convention => Command::Convention(convention(given)),
        Verb::Restrict => Command::Restrict(number(0), number(1), partition(2)),
        Verb::Commutator => Command::Commutator(number(0), number(1), number(2), partition(3)),
        Verb::Branch => Command::Branch(number(0), number(1), partition(2)),
        Verb::Product => Command::Product(partition(0), partition(1)),
        Verb::Fillings => Command::Fillings(partition(0), partition(1), partition(2)),
        Verb::Blocks => Command::Blocks(number(0), number(1)),
        Verb::Inverse => Command::Inverse(number(0), number(1)),
        Verb::Simple => Command::Simple(number(0), partition(1)),
        Verb::Cartan => Command::Cartan(number(0), number(1)),
    })
}

// The weight of a block.
fn weight(given: &[Given]) -> u64
    requires { given.now ≡ read_all (places_of Verb.Block) (words_of given.now) }
    ensures { result ≡ weight_of (word_in (words_of given.now) 2) }
{
    value_at(given, 2).number()
}

// The convention that `convention` names.
fn convention(given: &[Given]) -> Convention
    requires { given.now ≡ read_all (places_of Verb.Convention) (words_of given.now) }
    ensures { result ≡ convention_said (word_in (words_of given.now) 0) }
{
    value_at(given, 0).convention()
}
