// What the words of the command line say.
ghost use Rattle.std.specs.Prelude.{◌≡◌, ◌≤◌, ◌<◌, ◌^◌, ◌-◌, ℕ, List, map, MatchOption, IfOk, IfSome, option_map};
ghost use Rattle.std.specs.Prelude.{string_bytes};
ghost use Rattle.sp_words.specs.Found.{HasTexts};
ghost use Rattle.sp_words.specs.Words.{Says, SaysTexts, IsValue, Text, text_of};

use crate::found::{Texts, has_dashes, texts_of};
use crate::value::read_number;
use clap::error::ErrorKind;
use std::alloc::Global;

/// The limit on coefficients where the words name none.
pub const GREATEST_LIMIT: u128 = 170141183460469231731687303715884105727;

/// The greatest limit is the greatest `i128`.
pub fn greatest_limit_law()
    ensures { GREATEST_LIMIT ≡ 2 ^ 127 - 1 }
{}

/// What the words of the command line say.
#[derive(Clone, Copy, Debug, PartialEq, Eq)]
pub struct Words {
    /// How many workers fill the rows, from 1 to 16.
    pub workers: u8,
    /// The limit on sizes of coefficients, from 1 to `GREATEST_LIMIT`.
    pub limit: u128,
    /// Where the lines of the input are to be made and not read, the number that they are made from, below 2^31.
    pub generate: Option<u32>,
}

/// Why words are refused.
#[derive(Clone, Copy, Debug, PartialEq, Eq)]
pub enum WordsFault {
    /// They are no words of the program's.
    Usage,
    /// No memory was found to read them.
    Memory,
}

/// What the words say: `--limit` and `--generate` with a number, and `--workers` where there are `many`. Each stands
/// at most once, as two words or with `=` as one.
pub fn read_words(alloc: Global, words: &[String], many: bool) -> Result<Words, WordsFault>
    ensures said { IfOk result (λ said. Says many (map string_bytes words.now) said) }
    ensures only { IfOk result (λ said.
        (other : Words) → Says many (map string_bytes words.now) other → other ≡ said) }
    ensures usage { result ≡ Err WordsFault.Usage →
        (said : Words) → ¬ Says many (map string_bytes words.now) said }
    ensures workers { IfOk result (λ said. (1 ≤ said.workers) × (said.workers ≤ 16)) }
    ensures least { IfOk result (λ said. 1 ≤ said.limit) }
    ensures most { IfOk result (λ said. said.limit < 2 ^ 127) }
    ensures start { IfOk result (λ said. IfSome said.generate (λ start. start < 2 ^ 31)) }
{
    // `clap` would pass over this word.
    if has_dashes(words) {
        return Err(WordsFault::Usage);
    }
    match texts_of(alloc, words, many) {
        Ok(texts) => match values_of(&texts) {
            Some(said) => Ok(said),
            None => Err(WordsFault::Usage),
        },
        Err(error) => match error.kind() {
            ErrorKind::OutOfMemory => Err(WordsFault::Memory),
            _ => Err(WordsFault::Usage),
        },
    }
}

// What the texts of the options say.
fn values_of(texts: &Texts<'_>) -> Option<Words>
    ensures { MatchOption result
        ((said : Words) (options : List (Text × Text)) → HasTexts texts.now options →
        ¬ SaysTexts (λ name. text_of name options) said)
        (λ said. (options : List (Text × Text)) → HasTexts texts.now options →
        SaysTexts (λ name. text_of name options) said) }
{
    let workers = value_of(texts.workers, 1, 16, 4)?;
    let limit = value_of(texts.limit, 1, GREATEST_LIMIT, GREATEST_LIMIT)?;
    let generate = match texts.generate {
        Some(text) => Some(read_number(text, 0, 2_147_483_647)? as u32),
        None => None,
    };
    Some(Words {
        workers: workers as u8,
        limit,
        generate,
    })
}

// The value of an option that has this one where no text stands with it.
fn value_of(text: Option<&str>, least: u128, most: u128, default: u128) -> Option<u128>
    ensures { MatchOption result
        ((n : ℕ) → ¬ IsValue least most default (option_map (λ s. s.now) text.entry) n)
        (λ n. IsValue least most default (option_map (λ s. s.now) text.entry) n) }
{
    match text {
        Some(text) => read_number(text, least, most),
        None => Some(default),
    }
}
