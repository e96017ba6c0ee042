// The words of a line: it is cut at each space.
ghost use Rattle.std.specs.Prelude.{◌≡◌, ◌∷◌, [], None as Nothing, Some as Just, MatchOption};
ghost use Rattle.sp_partition.specs.Pieces.{StandsAt};
ghost use Rattle.sp_cert.specs.Grammar.{words, two_words as two_of, three_words as three_of};

/// The two words of a line, where it has two.
pub(crate) fn two_words(text: &[u8]) -> Option<(&[u8], &[u8])>
    ensures { MatchOption result (two_of (words text.now) ≡ Nothing)
        (λ found. two_of (words text.now) ≡ Just (found.0.now, found.1.now)) }
{
    let Some((first, rest)) = split_word(text) else {
        return None;
    };
    match split_word(rest) {
        Some(_) => None,
        None => Some((first, rest)),
    }
}

/// The three words of a line, where it has three.
pub(crate) fn three_words(text: &[u8]) -> Option<(&[u8], &[u8], &[u8])>
    ensures { MatchOption result (three_of (words text.now) ≡ Nothing)
        (λ found. three_of (words text.now) ≡ Just (found.0.now, found.1.now, found.2.now)) }
{
    let Some((first, rest)) = split_word(text) else {
        return None;
    };
    let Some((second, third)) = split_word(rest) else {
        return None;
    };
    match split_word(third) {
        Some(_) => None,
        None => Some((first, second, third)),
    }
}

// The first word, and what stands behind the space behind it. None where there is no space.
fn split_word(text: &[u8]) -> Option<(&[u8], &[u8])>
    ensures { MatchOption result (words text.now ≡ text.now ∷ [])
        (λ found. words text.now ≡ found.0.now ∷ words found.1.now) }
{
    let end = place(text);
    if end == text.len() {
        None
    } else {
        Some((&text[..end], &text[end + 1..]))
    }
}

// Where the first space stands, or the length where there is none.
fn place(text: &[u8]) -> usize
    ensures { StandsAt 32 text.now result }
{
    text.iter()
        .position(|byte| *byte == b' ')
        .unwrap_or(text.len())
}
