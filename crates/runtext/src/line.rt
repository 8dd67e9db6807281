// The lines of a run text, and how one is read.
ghost use Rattle.std.specs.Prelude.{◌≡◌, ℕ, [], ◌∷◌, Decides};
ghost use Rattle.runtext.specs.Lines.{letter, access_letter, source_letter, two, call_fields, fields, verb_of, kind_of, Number, SoundCall, Sound};
ghost use Rattle.runtext.specs.Reading.{Reads};

use crate::cut::cut;
use crate::number::number;
use arch::call::{Access, Call, SourceName};
use arch::record::{BlockKey, KEY_LIMIT, Word};

// The first line of a run text.
pub(crate) const FIRST_LINE: &[u8] = b"RUN\t1\n";

pub(crate) const TAB: u8 = 9;

pub(crate) const LINE_END: u8 = 10;

// What a line after the first says.
#[derive(Clone, Copy)]
pub(crate) enum Line {
    Doubleword(Word),
    Key(BlockKey),
    Call(Call),
}

// What its first field names.
#[derive(Clone, Copy)]
pub(crate) enum Kind {
    Doubleword,
    Key,
    Call(Verb),
}

#[derive(Clone, Copy)]
pub(crate) enum Verb {
    LoadControl,
    LoadAccess,
    LoadMode,
    SetPrefix,
    Translate,
    Put,
    Purge,
}

impl From<Call> for Verb {
    ghost from_gives = { λ c v. v ≡ verb_of c };

    fn from(call: Call) -> Verb {
        match call {
            Call::LoadControl { .. } => Verb::LoadControl,
            Call::LoadAccess { .. } => Verb::LoadAccess,
            Call::LoadMode { .. } => Verb::LoadMode,
            Call::SetPrefix { .. } => Verb::SetPrefix,
            Call::Translate { .. } => Verb::Translate,
            Call::Put { .. } => Verb::Put,
            Call::Purge { .. } => Verb::Purge,
        }
    }
}

impl From<Line> for Kind {
    ghost from_gives = { λ l k. k ≡ kind_of l };

    fn from(line: Line) -> Kind {
        match line {
            Line::Doubleword(_) => Kind::Doubleword,
            Line::Key(_) => Kind::Key,
            Line::Call(call) => Kind::Call(Verb::from(call)),
        }
    }
}

// Whether a line holds what the format can spell.
pub(crate) fn sound(line: Line) -> bool
    ensures { Decides result (Sound line) }
{
    match line {
        Line::Doubleword(word) => word.address % 8 == 0,
        Line::Key(key) => key.key < KEY_LIMIT,
        Line::Call(_) => true,
    }
}

// The one byte of a field that has no more.
pub(crate) fn lone(field: &[u8]) -> Option<u8>
    ensures { Reads result (λ _. Unit {0}) (λ b. b ∷ []) field.now }
{
    match field {
        [b] => Some(*b),
        _ => None,
    }
}

// What a letter stands for.
// An impl has its table both ways, since each is a few lines, and two crates declare the types.
pub(crate) trait Letter {
    ghost spelt: { Self → ℕ };

    fn letter(self) -> u8
    where
        Self: Sized,
        ensures { result ≡ spelt self };

    // What has this letter, if any.
    fn of_letter(b: u8) -> Option<Self>
    where
        Self: Sized,
        ensures { Reads result (λ _. Unit {0}) spelt b };
}

impl Letter for Kind {
    ghost spelt = { letter };

    fn letter(self) -> u8 {
        match self {
            Kind::Doubleword => b'D',
            Kind::Key => b'K',
            Kind::Call(Verb::LoadControl) => b'C',
            Kind::Call(Verb::LoadAccess) => b'A',
            Kind::Call(Verb::LoadMode) => b'M',
            Kind::Call(Verb::SetPrefix) => b'X',
            Kind::Call(Verb::Translate) => b'T',
            Kind::Call(Verb::Put) => b'W',
            Kind::Call(Verb::Purge) => b'Z',
        }
    }

    fn of_letter(b: u8) -> Option<Self> {
        match b {
            b'D' => Some(Kind::Doubleword),
            b'K' => Some(Kind::Key),
            b'C' => Some(Kind::Call(Verb::LoadControl)),
            b'A' => Some(Kind::Call(Verb::LoadAccess)),
            b'M' => Some(Kind::Call(Verb::LoadMode)),
            b'X' => Some(Kind::Call(Verb::SetPrefix)),
            b'T' => Some(Kind::Call(Verb::Translate)),
            b'W' => Some(Kind::Call(Verb::Put)),
            b'Z' => Some(Kind::Call(Verb::Purge)),
            _ => None,
        }
    }
}

impl Letter for Access {
    ghost spelt = { access_letter };

    fn letter(self) -> u8 {
        match self {
            Access::Fetch => b'F',
            Access::Store => b'S',
        }
    }

    fn of_letter(b: u8) -> Option<Self> {
        match b {
            b'F' => Some(Access::Fetch),
            b'S' => Some(Access::Store),
            _ => None,
        }
    }
}

impl Letter for SourceName {
    ghost spelt = { source_letter };

    fn letter(self) -> u8 {
        match self {
            SourceName::AccessRegister => b'A',
            SourceName::Page => b'T',
        }
    }

    fn of_letter(b: u8) -> Option<Self> {
        match b {
            b'A' => Some(SourceName::AccessRegister),
            b'T' => Some(SourceName::Page),
            _ => None,
        }
    }
}

// Two numbers, parted by a tab.
fn two_numbers(bytes: &[u8]) -> Option<(u64, u64)>
    ensures { Reads result (λ p. Number p.0 × Number p.1) (λ p. two p.0 p.1) bytes.now }
{
    let (first, after) = cut(bytes, TAB);
    let m = number(first)?;
    let n = number(after?)?;
    Some((m, n))
}

fn doubleword(bytes: &[u8]) -> Option<Line>
    ensures { Reads result (λ l. Sound l × (kind_of l ≡ Kind.Doubleword)) fields bytes.now }
{
    let (address, value) = two_numbers(bytes)?;
    if address % 8 == 0 {
        Some(Line::Doubleword(Word { address, value }))
    } else {
        None
    }
}

fn block_key(bytes: &[u8]) -> Option<Line>
    ensures { Reads result (λ l. Sound l × (kind_of l ≡ Kind.Key)) fields bytes.now }
{
    let (block, key) = two_numbers(bytes)?;
    if key < u64::from(KEY_LIMIT) {
        Some(Line::Key(BlockKey {
            block,
            key: key as u8,
        }))
    } else {
        None
    }
}

fn load_mode(bytes: &[u8]) -> Option<Call>
    ensures { Reads result (λ c. SoundCall c × (verb_of c ≡ Verb.LoadMode)) call_fields bytes.now }
{
    let (first, after) = cut(bytes, TAB);
    let mode = number(first)?;
    let (size, key) = two_numbers(after?)?;
    Some(Call::LoadMode { mode, size, key })
}

fn translate(bytes: &[u8]) -> Option<Call>
    ensures { Reads result (λ c. SoundCall c × (verb_of c ≡ Verb.Translate)) call_fields bytes.now }
{
    let (first, after) = cut(bytes, TAB);
    let letter = lone(first)?;
    let access = Access::of_letter(letter)?;
    let (register, address) = two_numbers(after?)?;
    Some(Call::Translate {
        access,
        register,
        address,
    })
}

fn purge(bytes: &[u8]) -> Option<Call>
    ensures { Reads result (λ c. SoundCall c × (verb_of c ≡ Verb.Purge)) call_fields bytes.now }
{
    let letter = lone(bytes)?;
    SourceName::of_letter(letter).map(|source| Call::Purge { source })
}

fn call(verb: Verb, bytes: &[u8]) -> Option<Call>
    ensures { Reads result (λ c. SoundCall c × (verb_of c ≡ verb)) call_fields bytes.now }
{
    match verb {
        Verb::LoadControl => {
            let (register, value) = two_numbers(bytes)?;
            Some(Call::LoadControl { register, value })
        }
        Verb::LoadAccess => {
            let (register, value) = two_numbers(bytes)?;
            Some(Call::LoadAccess { register, value })
        }
        Verb::LoadMode => load_mode(bytes),
        Verb::SetPrefix => number(bytes).map(|prefix| Call::SetPrefix { prefix }),
        Verb::Translate => translate(bytes),
        Verb::Put => {
            let (address, value) = two_numbers(bytes)?;
            Some(Call::Put { address, value })
        }
        Verb::Purge => purge(bytes),
    }
}

// The line of a kind that has these fields after its first.
pub(crate) fn line_of(kind: Kind, bytes: &[u8]) -> Option<Line>
    ensures { Reads result (λ l. Sound l × (kind_of l ≡ kind)) fields bytes.now }
{
    match kind {
        Kind::Doubleword => doubleword(bytes),
        Kind::Key => block_key(bytes),
        Kind::Call(verb) => call(verb, bytes).map(Line::Call),
    }
}
