// Numbers of a run text.
ghost use Rattle.std.specs.Prelude.{◌^◌, ◌<◌, ◌≤◌, ◌≢◌, length, slice_index};
ghost use Rattle.runtext.specs.Numerals.{hexit, numeral};
ghost use Rattle.runtext.specs.Reading.{Reads};

// The most digits that a number of 64 bits has.
const DIGITS: usize = 16;

// The value of a hexadecimal digit. The library's `to_digit` takes capitals too.
fn digit(b: u8) -> Option<u8>
    ensures { Reads result (λ d. d < 16) hexit b }
{
    match b {
        b'0'..=b'9' => Some(b - b'0'),
        b'a'..=b'f' => Some(b - b'a' + 10),
        _ => None,
    }
}

// The number that these digits spell, where they are few enough and no zero leads them.
fn value(digits: &[u8]) -> Option<u64>
    requires some { 0 < length digits.now }
    requires few { length digits.now ≤ 16 }
    requires lead { slice_index digits.now 0 ≢ 48 }
    ensures { Reads result (λ n. n < 2 ^ 64) numeral digits.now }
{
    let mut n: u64 = 0;
    for b in digits {
        n = n * 16 + u64::from(digit(*b)?);
    }
    Some(n)
}

// The number that a whole field spells.
pub(crate) fn number(field: &[u8]) -> Option<u64>
    ensures { Reads result (λ n. n < 2 ^ 64) numeral field.now }
{
    if field.len() > DIGITS {
        return None;
    }
    match field {
        [] => None,
        [b'0'] => Some(0),
        // A zero leads no other digit.
        [b'0', ..] => None,
        _ => value(field),
    }
}
