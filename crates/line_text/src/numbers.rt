//! Decimal numbers with no leading zero.

ghost use Rattle.std.specs.Prelude.{◌≡◌, ◌^◌, ◌<◌, ◌≤◌, decimal};
ghost use Rattle.std.specs.Fmt.{signed_decimal};
ghost use Rattle.std.specs.Str.{bytes_eq};
ghost use Rattle.line_text.specs.Spelling.{ReadsBack, Bounded};

use crate::parts::is_numeral;
use std::str;

/// The number below 2³² that `bytes` spell in decimal, if they spell one: no sign, and no zero in front of another digit.
fn decimal_u32(bytes: &[u8]) -> Option<u32>
    ensures { ReadsBack decimal (λ n. n < 2 ^ 32) bytes.now result }
{
    // no such number has more than ten digits, and longer bytes are not read
    if bytes.len() > 10 {
        return None;
    }
    if !is_numeral(bytes) {
        return None;
    }
    str::from_utf8(bytes).ok()?.parse().ok()
}

/// The number up to `limit` that `bytes` spell in decimal, if they spell one: no sign, and no zero in front of another digit.
#[tactic(auto, using(crate::proofs::Numerals::only))]
pub(crate) fn number(bytes: &[u8], limit: u32) -> Option<u32>
    ensures { ReadsBack decimal (λ n. n ≤ limit) bytes.now result }
{
    let value = decimal_u32(bytes)?;
    (value <= limit).then_some(value)
}

/// Neither the total depth nor the millimetres of a tie pass this, either way.
pub(crate) const MAX_MM: u32 = 20_000_000;

/// The number from −`MAX_MM` to `MAX_MM` that `bytes` spell in decimal, if they spell one: no zero in front of another digit, and no sign at 0.
pub(crate) fn millimetres(bytes: &[u8]) -> Option<i64>
    ensures { ReadsBack signed_decimal Bounded bytes.now result }
{
    match bytes {
        [b'-', digits @ ..] => match number(digits, MAX_MM)? {
            0 => None,
            n => Some(-i64::from(n)),
        },
        _ => number(bytes, MAX_MM).map(i64::from),
    }
}

/// Whether `bytes` spell `n`.
#[tactic(auto, using(crate::proofs::Numerals::spells_is))]
pub fn spells(bytes: &[u8], n: u32) -> bool
    ensures { result ≡ bytes_eq bytes.now (decimal n) }
{
    number(bytes, n) == Some(n)
}
