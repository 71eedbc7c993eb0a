//! The parts of a line, which one space separates.

ghost use Rattle.std.specs.Prelude.{◌≡◌, ◌∷◌, ◌++◌, Decides, MatchOption};
ghost use Rattle.line_text.specs.Spelling.{Without, Name, Numeral};

/// What stands before the first byte `at` and what stands after it, if there is one.
pub fn cut(bytes: &[u8], at: u8) -> Option<(&[u8], &[u8])>
    ensures { MatchOption result (Without at bytes.now) (λ p. Without at p.0.now × (bytes.now ≡ p.0.now ++ at ∷ p.1.now)) }
{
    let i = bytes.iter().position(|b| *b == at)?;
    Some((&bytes[..i], &bytes[i + 1..]))
}

/// Whether `bytes` are a name: 1 to 16 bytes from 33 to 126.
pub(crate) fn is_name(bytes: &[u8]) -> bool
    ensures { Decides result (Name bytes.now) }
{
    (1..=16).contains(&bytes.len()) && bytes.iter().all(u8::is_ascii_graphic)
}

/// Whether `bytes` are a numeral: decimal digits with no zero in front of another.
pub(crate) fn is_numeral(bytes: &[u8]) -> bool
    ensures { Decides result (Numeral bytes.now) }
{
    match bytes {
        [] | [b'0', _, ..] => false,
        _ => bytes.iter().all(u8::is_ascii_digit),
    }
}
