//! The words of a line.
ghost use Rattle.std.specs.Prelude.{◌≡◌, ◌==◌, ◌<◌, ◌∷◌, [], not, length, position, IfSome, IfNone, None};
ghost use Rattle.std.specs.Option.{option_copied};
ghost use Rattle.next_grammar.specs.Words.{pieces, words, only, pair, is_comment};

fn place_of(text: &[u8], byte: u8) -> Option<usize>
    ensures { result ≡ position (λ b. b == byte) text.now }
{
    text.iter().position(|b| *b == byte)
}

// Where the first other byte stands.
fn place_of_other(text: &[u8], byte: u8) -> Option<usize>
    ensures { result ≡ position (λ b. not (b == byte)) text.now }
{
    text.iter().position(|b| *b != byte)
}

/// What stands before and after the first such byte. None comes exactly where there is no such byte.
#[tactic(auto, using(crate::proofs::Cutting::cutting))]
pub fn cut_at(text: &[u8], byte: u8) -> Option<(&[u8], &[u8])>
    ensures found { IfSome result (λ parts. pieces byte text.now ≡ parts.0.now ∷ pieces byte parts.1.now) }
    ensures shorter { IfSome result (λ parts. length parts.1.now < length text.now) }
    ensures none { IfNone result (pieces byte text.now ≡ text.now ∷ []) }
{
    let at = place_of(text, byte)?;
    Some((&text[..at], &text[at + 1..]))
}

/// The first word, and what stands behind it. None comes exactly where there is no word.
pub fn cut_word(text: &[u8]) -> Option<(&[u8], &[u8])>
    ensures found { IfSome result (λ parts. words text.now ≡ parts.0.now ∷ words parts.1.now) }
    ensures shorter { IfSome result (λ parts. length parts.1.now < length text.now) }
    ensures none { IfNone result (words text.now ≡ []) }
{
    let start = place_of_other(text, b' ')?;
    let rest = &text[start..];
    match cut_at(rest, b' ') {
        Some(parts) => Some(parts),
        None => Some((rest, &[])),
    }
}

/// The word, where it is the only one.
pub fn only_word(text: &[u8]) -> Option<&[u8]>
    ensures { option_copied result ≡ only (words text.now) }
{
    let (word, rest) = cut_word(text)?;
    if cut_word(rest).is_some() {
        return None;
    }
    Some(word)
}

/// The words, where there are two.
pub fn two_words(text: &[u8]) -> Option<(&[u8], &[u8])>
    ensures two { IfSome result (λ parts. words text.now ≡ parts.0.now ∷ parts.1.now ∷ []) }
    ensures none { IfNone result (pair (words text.now) ≡ None) }
{
    let (first, rest) = cut_word(text)?;
    let second = only_word(rest)?;
    Some((first, second))
}

/// Whether the line is a comment.
pub fn is_comment(line: &[u8]) -> bool
    ensures { result ≡ is_comment line.now }
{
    line.first() == Some(&b'#')
}
