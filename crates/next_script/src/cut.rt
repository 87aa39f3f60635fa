//! Lines cut off at LF.
ghost use Rattle.std.specs.Prelude.{◌≡◌, ◌<◌, ◌∷◌, [], length, IfSome, IfNone};
ghost use Rattle.next_script.specs.Pieces.{lines, rest_of_lines, without_return};

use next_grammar::cut_at;

/// The first line without its LF, and what stands behind it.
#[tactic(auto, using(crate::proofs::Cutting::cutting))]
pub fn cut_line(text: &[u8]) -> Option<(&[u8], &[u8])>
    ensures found { IfSome result (λ parts. lines text.now ≡ parts.0.now ∷ lines parts.1.now) }
    ensures same_rest { IfSome result (λ parts. rest_of_lines text.now ≡ rest_of_lines parts.1.now) }
    ensures shorter { IfSome result (λ parts. length parts.1.now < length text.now) }
    ensures none { IfNone result (lines text.now ≡ []) }
    ensures no_line { IfNone result (rest_of_lines text.now ≡ text.now) }
{
    cut_at(text, b'\n')
}

/// The line without the CR at its end, where it has one.
#[tactic(auto, using(crate::proofs::Cutting::returning))]
pub fn text_of(line: &[u8]) -> &[u8]
    ensures { result.now ≡ without_return line.now }
{
    let Some((last, text)) = line.split_last() else {
        return line;
    };
    if *last == b'\r' { text } else { line }
}
