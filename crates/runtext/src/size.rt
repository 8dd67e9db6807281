// How many bytes the parts of a text have.
ghost use Rattle.std.specs.Prelude.{◌≡◌, ◌≤◌, length};
ghost use Rattle.runtext.specs.Lines.{two, call_fields, fields, spell_line};
ghost use Rattle.runtext.specs.Numerals.{numeral};

use crate::line::Line;
use arch::call::Call;

fn number_size(n: u64) -> usize
    ensures size { result ≡ length (numeral n) }
    ensures most { result ≤ 16 }
{
    if n < 16 { 1 } else { number_size(n / 16) + 1 }
}

fn two_size(m: u64, n: u64) -> usize
    ensures size { result ≡ length (two m n) }
    ensures most { result ≤ 33 }
{
    number_size(m) + 1 + number_size(n)
}

fn call_size(call: Call) -> usize
    ensures size { result ≡ length (call_fields call) }
    ensures most { result ≤ 50 }
{
    match call {
        Call::LoadControl { register, value } => two_size(register, value),
        Call::LoadAccess { register, value } => two_size(register, value),
        Call::LoadMode { mode, size, key } => number_size(mode) + 1 + two_size(size, key),
        Call::SetPrefix { prefix } => number_size(prefix),
        Call::Translate {
            register,
            address,
            ..
        } => two_size(register, address) + 2,
        Call::Put { address, value } => two_size(address, value),
        Call::Purge { .. } => 1,
    }
}

fn fields_size(line: Line) -> usize
    ensures size { result ≡ length (fields line) }
    ensures most { result ≤ 50 }
{
    match line {
        Line::Doubleword(word) => two_size(word.address, word.value),
        Line::Key(key) => two_size(key.block, u64::from(key.key)),
        Line::Call(call) => call_size(call),
    }
}

// A letter, a tab, the other fields and the line's end.
pub(crate) fn line_size(line: Line) -> usize
    ensures size { result ≡ length (spell_line line) }
    ensures most { result ≤ 53 }
{
    fields_size(line) + 3
}
