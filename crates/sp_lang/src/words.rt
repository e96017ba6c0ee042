// The words of a line.
ghost use Rattle.std.specs.Prelude.{◌≡◌, ◌∷◌, [], MatchOption};
ghost use Rattle.std.specs.List.{position, position_or_len};
ghost use Rattle.sp_lang.specs.Words.{is_blank as blank, words};

/// The first word, and what stands behind it. None where there is no word.
pub(crate) fn split_word(text: &[u8]) -> Option<(&[u8], &[u8])>
    ensures { MatchOption result (words text.now ≡ []) (λ p. words text.now ≡ p.0.now ∷ words p.1.now) }
{
    let mut rest = text;
    while let Some((first, others)) = rest.split_first() {
        if !is_blank(*first) {
            return Some(rest.split_at(word_length(rest)));
        }
        rest = others;
    }
    None
}

// How many bytes stand before the first blank.
fn word_length(text: &[u8]) -> usize
    ensures { result ≡ position_or_len blank text.now }
{
    first_blank(text).unwrap_or(text.len())
}

fn first_blank(text: &[u8]) -> Option<usize>
    ensures { result ≡ position blank text.now }
{
    text.iter().position(|byte| is_blank(*byte))
}

fn is_blank(byte: u8) -> bool
    ensures { result ≡ blank byte }
{
    byte == b' ' || byte == b'\t'
}
