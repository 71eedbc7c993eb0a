//! Reads one line of a well's text.

ghost use Rattle.std.specs.Prelude.{◌∷◌};
ghost use Rattle.line_text.specs.Lines.{spell, spell_amount, Unambiguous, Valid};
ghost use Rattle.line_text.specs.Spelling.{Bounded, ReadsBack};

use crate::lines::{Line, TieAmount};
use crate::numbers::millimetres;
use crate::parts::{cut, is_name, is_numeral};

/// Millimetres, and ` <` after them where the tie is strict.
fn tie_amount(bytes: &[u8]) -> Option<TieAmount>
    ensures { ReadsBack spell_amount (λ a. Bounded a.mm) bytes.now result }
{
    let front = bytes.strip_suffix(b" <");
    Some(TieAmount {
        mm: millimetres(front.unwrap_or(bytes))?,
        strict: front.is_some(),
    })
}

fn tie(bytes: &[u8]) -> Option<Line<'_>>
    ensures { ReadsBack spell Valid (84 ∷ 32 ∷ bytes.now) result }
{
    let (start, rest) = cut(bytes, b' ')?;
    let (end, last) = cut(rest, b' ')?;
    let amount = tie_amount(last)?;
    (is_name(start) && is_name(end)).then_some(Line::Tie { start, end, amount })
}

fn trailer(bytes: &[u8]) -> Option<Line<'_>>
    ensures { ReadsBack spell Valid (90 ∷ 32 ∷ bytes.now) result }
{
    let (place, count) = cut(bytes, b' ')?;
    (is_numeral(place) && is_numeral(count)).then_some(Line::Trailer { place, count })
}

/// The line that `bytes` spell, if they spell one.
pub fn parse_line(bytes: &[u8]) -> Option<Line<'_>>
    ensures { ReadsBack spell Valid bytes.now result }
{
    match bytes {
        [b'H', b' ', depth @ ..] => Some(Line::TotalDepth(millimetres(depth)?)),
        [b'M', b' ', name @ ..] => is_name(name).then_some(Line::Marker(name)),
        [b'T', b' ', rest @ ..] => tie(rest),
        [b'Z', b' ', rest @ ..] => trailer(rest),
        _ => None,
    }
}

/// No two lines that say different things are spelt alike.
pub fn unambiguous()
    ensures { Unambiguous }
{}
