// A text on its way out, one byte after another.
ghost use Rattle.std.specs.Prelude.{◌≡◌, ◌<◌, [], ◌∷◌, length};
ghost use Rattle.runtext.specs.Lines.{two, call_fields, fields, spell_line};
ghost use Rattle.runtext.specs.Numerals.{hexit, numeral};
ghost use Rattle.runtext.specs.Runs.{HasRoom, spell};
ghost use Rattle.runtext.specs.Writing.{Adds, Laid};

use crate::line::{FIRST_LINE, Kind, LINE_END, Letter, Line, TAB};
use crate::run::Run;
use arch::call::Call;

// As the library's `from_digit`, which answers an Option, with no `None` to rule out.
fn digit_of(d: u8) -> u8
    requires { d < 16 }
    ensures { result ≡ hexit d }
{
    if d < 10 { b'0' + d } else { b'a' + (d - 10) }
}

// A text so far: as many of its bytes as the buffer has room for, from the buffer's start, and how
// many it has.
// This is no `fmt::Write`, and no line is a `Display`: what a formatter writes may fail, and its
// contract does not say when, while a text that has room is written.
#[derive(Drop)]
pub(crate) struct Text<'a> {
    // Lent, and no `Vec`: a text is laid into a place of fixed size, and this crate has no heap.
    buffer: &'a mut [u8],
    length: usize,
}

impl Text<'_> {
    fn byte(&mut self, b: u8)
        ensures { Adds (b ∷ []) self.old self.new }
    {
        if self.length < self.buffer.len() {
            self.buffer[self.length] = b;
        }
        self.length = self.length.saturating_add(1);
    }

    fn bytes(&mut self, bytes: &[u8])
        ensures { Adds bytes.now self.old self.new }
    {
        for b in bytes {
            self.byte(*b);
        }
    }

    fn number(&mut self, n: u64)
        ensures { Adds (numeral n) self.old self.new }
    {
        if n >= 16 {
            self.number(n / 16);
        }
        self.byte(digit_of((n % 16) as u8));
    }

    // Two numbers, parted by a tab.
    fn two(&mut self, m: u64, n: u64)
        ensures { Adds (two m n) self.old self.new }
    {
        self.number(m);
        self.byte(TAB);
        self.number(n);
    }

    fn call_fields(&mut self, call: Call)
        ensures { Adds (call_fields call) self.old self.new }
    {
        match call {
            Call::LoadControl { register, value } => self.two(register, value),
            Call::LoadAccess { register, value } => self.two(register, value),
            Call::LoadMode { mode, size, key } => {
                self.number(mode);
                self.byte(TAB);
                self.two(size, key);
            }
            Call::SetPrefix { prefix } => self.number(prefix),
            Call::Translate {
                access,
                register,
                address,
            } => {
                self.byte(access.letter());
                self.byte(TAB);
                self.two(register, address);
            }
            Call::Put { address, value } => self.two(address, value),
            Call::Purge { source } => self.byte(source.letter()),
        }
    }

    // The fields of a line after its first.
    fn fields(&mut self, line: Line)
        ensures { Adds (fields line) self.old self.new }
    {
        match line {
            Line::Doubleword(word) => self.two(word.address, word.value),
            Line::Key(key) => self.two(key.block, u64::from(key.key)),
            Line::Call(call) => self.call_fields(call),
        }
    }

    fn line(&mut self, line: Line)
        ensures { Adds (spell_line line) self.old self.new }
    {
        self.byte(Kind::from(line).letter());
        self.byte(TAB);
        self.fields(line);
        self.byte(LINE_END);
    }

    fn run(&mut self, run: &Run<'_>)
        ensures { Adds (spell run.now) self.old self.new }
    {
        self.bytes(FIRST_LINE);
        for line in run.lines() {
            self.line(line);
        }
    }
}

// Lays the text of a run at the start of a buffer, and says where it ends.
pub(crate) fn lay(run: &Run<'_>, buffer: &mut [u8]) -> usize
    requires { HasRoom (length buffer.old) run.now }
    ensures { Laid 0 (spell run.now) buffer.old buffer.new result }
{
    let mut text = Text { buffer, length: 0 };
    text.run(run);
    text.length
}
