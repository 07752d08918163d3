//! A text as lines, and a line as pieces.
ghost use Rattle.std.specs.Prelude.{◌≡◌, ◌<◌, ◌∷◌, [], length, IfSome, IfNone, MatchOption};
ghost use Rattle.std.specs.Option.{option_map_or};
ghost use Rattle.giputils_text.specs.Lines.{pieces, text_lines};

/// The first line of a text, and what comes after it. An empty text has none.
pub fn split_line(text: &[u8]) -> Option<(&[u8], &[u8])>
    ensures lines { MatchOption result (text_lines text.now ≡ [])
        (λ split. text_lines text.now ≡ split.0.now ∷ text_lines split.1.now) }
    ensures shorter { IfSome result (λ split. length split.1.now < length text.now) }
{
    if text.is_empty() {
        return None;
    }
    let (line, rest) = split_once(text, b'\n');
    match rest {
        Some(rest) => Some((line, rest)),
        None => Some((line, &[])),
    }
}

/// What stands before the first `byte` of a text, and what comes after it where there is one.
pub fn split_once(text: &[u8], byte: u8) -> (&[u8], Option<&[u8]>)
    ensures parts { pieces byte text.now ≡ result.0.now ∷ option_map_or (λ rest. pieces byte rest.now) result.1 [] }
    ensures shorter { IfSome result.1 (λ rest. length rest.now < length text.now) }
    ensures whole { IfNone result.1 (result.0.now ≡ text.now) }
{
    match text.iter().position(|b| *b == byte) {
        Some(at) => (&text[..at], Some(&text[at + 1..])),
        None => (text, None),
    }
}
