// The bits of a doubleword, numbered from 0 on the left as in the architecture's manuals.
ghost use Rattle.std.specs.Prelude.{◌≡◌};
ghost use Rattle.arch.specs.Bits.{bits, bit};

// The number that the bits from `first` to `last` make.
pub fn field(word: u64, first: u8, last: u8) -> u64
    ensures { result ≡ bits first last word }
{
    let shifted = word >> 63u8.saturating_sub(last);
    let width = (u32::from(last) + 1).saturating_sub(u32::from(first));
    if width < 64 {
        shifted % (1u64 << width)
    } else {
        shifted
    }
}

// Whether bit `n` is one.
pub fn flag(word: u64, n: u8) -> bool
    ensures { result ≡ bit n word }
{
    field(word, n, n) == 1
}
