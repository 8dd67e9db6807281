// The modes of a machine, and its address sizes. Each has a table of its own from numbers: one for
// both would be longer than the two.
ghost use Rattle.std.specs.Prelude.{◌≡◌};
ghost use Rattle.machine.specs.Registers.{named, mode_of, size_of};

use arch::condition::Condition;

// Which address space a translation goes through.
#[derive(Clone, Copy, PartialEq, Eq, Debug)]
pub enum Mode {
    DatOff,
    Primary,
    AccessRegister,
    Secondary,
    Home,
}

// How many bits an address has.
#[derive(Clone, Copy, PartialEq, Eq, Debug)]
pub enum AddressSize {
    Bits24,
    Bits31,
    Bits64,
}

impl TryFrom<u64> for Mode {
    type Error = Condition;

    ghost try_from_gives = { λ n r. r ≡ named (mode_of n) };

    // By its number, 0 to 4; any other is refused.
    fn try_from(number: u64) -> Result<Self, Condition> {
        match number {
            0 => Ok(Mode::DatOff),
            1 => Ok(Mode::Primary),
            2 => Ok(Mode::AccessRegister),
            3 => Ok(Mode::Secondary),
            4 => Ok(Mode::Home),
            _ => Err(Condition::BadNumber),
        }
    }
}

impl TryFrom<u64> for AddressSize {
    type Error = Condition;

    ghost try_from_gives = { λ n r. r ≡ named (size_of n) };

    // By its number, 0 to 2; any other is refused.
    fn try_from(number: u64) -> Result<Self, Condition> {
        match number {
            0 => Ok(AddressSize::Bits24),
            1 => Ok(AddressSize::Bits31),
            2 => Ok(AddressSize::Bits64),
            _ => Err(Condition::BadNumber),
        }
    }
}
