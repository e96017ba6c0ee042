// The words behind the first, each read once.
ghost use Rattle.std.specs.Prelude.{◌≡◌, ◌≢◌, ◌≤◌, MatchOption, length};
ghost use Rattle.sp_lang.specs.Words.{words};
ghost use Rattle.sp_lang.specs.Commands.{word_at as word_in};
ghost use Rattle.sp_lang.specs.Values.{read as read_as, read_all, value_at as value_in, words_of};

use crate::Name;
use crate::value::{Value, value_of};
use crate::verb::Place;
use crate::words::split_word;
use arrayvec::ArrayVec;

/// A word in its place, and what was read of it.
#[derive(Debug, Drop)]
pub struct Given<'a> {
    pub place: Place,
    pub word: Name<'a>,
    pub value: Value,
}

impl<'a> Default for Given<'a> {
    fn default() -> Given<'a> {
        Given {
            place: Place::Name,
            word: Name::of(b""),
            value: Value::Name,
        }
    }
}

/// The words of a text, read. None where there are more or fewer of them than places.
pub(crate) fn read_words<'a>(places: &[Place], text: &'a [u8]) -> Option<ArrayVec<Given<'a>, 4>>
    requires { length places.now ≤ 4 }
    ensures { MatchOption result
        (length (words text.now) ≢ length places.now)
        (λ given. (length (words text.now) ≡ length places.now)
        × (given.items ≡ read_all places.now (words text.now))) }
{
    let mut given = ArrayVec::new();
    let mut rest = text;
    for place in places {
        let Some((word, behind)) = split_word(rest) else {
            return None;
        };
        given.push(read(*place, word));
        rest = behind;
    }
    match split_word(rest) {
        Some(_) => None,
        None => Some(given),
    }
}

fn read(place: Place, word: &[u8]) -> Given<'_>
    ensures { result ≡ read_as place word.now }
{
    Given {
        place,
        word: Name::of(word),
        value: value_of(place, word),
    }
}

/// What was read at a place, counted from 0.
pub(crate) fn value_at(given: &[Given], place: usize) -> Value
    ensures { result ≡ value_in given.now place }
{
    match given.get(place) {
        Some(one) => one.value,
        None => Value::Name,
    }
}

/// The word at a place, counted from 0.
pub(crate) fn word_at<'a>(given: &[Given<'a>], place: usize) -> &'a [u8]
    ensures { result.now ≡ word_in (words_of given.now) place }
{
    match given.get(place) {
        Some(one) => one.word.as_bytes(),
        None => b"",
    }
}
