// Decimal numbers.
ghost use Rattle.std.specs.Prelude.{◌≡◌, ◌+◌, ◌*◌, ◌^◌, ◌≤◌, MatchOption};
ghost use Rattle.text.specs.Numbers.{worth, after_digits, NumberOf};

// One digit more, where the number still fits.
fn grown(n: u64, digit: u8) -> Option<u64>
    ensures { MatchOption result (2 ^ 64 ≤ n * 10 + digit) (λ m. m ≡ n * 10 + digit) }
{
    n.checked_mul(10)?.checked_add(u64::from(digit))
}

// The number that the digits at the start of the text come to, and what follows them; none where it passes 64 bits.
// One walk, that stops there: `from_utf8` and `parse` would take three, to the last digit.
fn digits(text: &[u8]) -> Option<(u64, &[u8])>
    ensures { MatchOption result (2 ^ 64 ≤ worth text.now) (λ p. (p.0 ≡ worth text.now) × (p.1.now ≡ after_digits text.now)) }
{
    let mut n: u64 = 0;
    let mut rest = text;
    while let [digit @ b'0'..=b'9', tail @ ..] = rest {
        n = grown(n, *digit - b'0')?;
        rest = tail;
    }
    Some((n, rest))
}

// A decimal number below 2^64 without leading zeros, and what follows it.
pub(crate) fn number(text: &[u8]) -> Option<(u64, &[u8])>
    ensures { NumberOf text.now result }
{
    match text {
        [b'0', b'0'..=b'9', ..] => None,
        [b'0'..=b'9', ..] => digits(text),
        _ => None,
    }
}
