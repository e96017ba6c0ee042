// The numbers of a line.
ghost use Rattle.std.specs.Prelude.{◌≡◌, min, IsTrue};
ghost use Rattle.std.specs.Char.{is_digit};
ghost use Rattle.std.specs.List.{list_all};
ghost use Rattle.std.specs.Option.{option_map};
ghost use Rattle.std.specs.Str.Parse.{digits_value};
ghost use Rattle.sp_partition.specs.Reading.{is_number as number_word, number_of};
ghost use Rattle.sp_cert.specs.Grammar.{words, two_words as two_of, number_behind as behind};

use crate::words::two_words;

/// The number behind a word, where they are the line, or 255 where it is greater.
pub(crate) fn number_behind(word: &[u8], text: &[u8]) -> Option<u8>
    ensures { result ≡ option_map (λ n. min n 255) (behind word.now (two_of (words text.now))) }
{
    let Some((first, second)) = two_words(text) else {
        return None;
    };
    if first == word { number(second) } else { None }
}

// The number that a word says, or 255 where it is greater.
fn number(word: &[u8]) -> Option<u8>
    ensures { result ≡ option_map (λ n. min n 255) (number_of word.now) }
{
    if is_number(word) {
        Some(counted(word))
    } else {
        None
    }
}

// Whether these are digits, of which the first is 0 only where it is the one digit.
fn is_number(word: &[u8]) -> bool
    ensures { result ≡ number_word word.now }
{
    match word {
        [] => false,
        [first, rest @ ..] => are_digits(word) && (rest.is_empty() || *first != b'0'),
    }
}

fn are_digits(word: &[u8]) -> bool
    ensures { result ≡ list_all (λ c. is_digit c 10) word.now }
{
    word.iter().all(|byte| byte.is_ascii_digit())
}

// What the digits count, or 255 where that is greater.
fn counted(digits: &[u8]) -> u8
    requires { IsTrue (number_word digits.now) }
    ensures { result ≡ min (digits_value 10 digits.now) 255 }
{
    let mut value = 0u8;
    for digit in digits {
        value = value.saturating_mul(10).saturating_add(*digit - b'0');
    }
    value
}
