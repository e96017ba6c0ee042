// The value of an option.
ghost use Rattle.std.specs.Prelude.{◌≡◌, ◌≤◌, ◌<◌, ◌^◌, ℕ, MatchOption};
ghost use Rattle.sp_words.specs.Words.{IsNumberWithin};

/// The number that a text names, if it is one in this range.
pub(crate) fn read_number(text: &str, least: u128, most: u128) -> Option<u128>
    ensures { MatchOption result
        ((n : ℕ) → ¬ IsNumberWithin least most text.now n)
        (λ n. IsNumberWithin least most text.now n) }
{
    let first = text.as_bytes().first()?;
    // `parse` reads a plus and zeros in front, too.
    if *first < b'0' || *first == b'0' && text.len() > 1 {
        return None;
    }
    let number = text.parse::<u128>().ok()?;
    if least <= number && number <= most {
        Some(number)
    } else {
        None
    }
}
