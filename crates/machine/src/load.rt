// The loads of registers.
ghost use Rattle.std.specs.Prelude.{◌≡◌};
ghost use Rattle.std.specs.Option.{unwrap_or};
ghost use Rattle.machine.specs.Registers.{load_result, with_access, with_control, with_mode};

use crate::mode::{AddressSize, Mode};
use crate::registers::Machine;
use arch::condition::Condition;

// Each load refuses a number outside what is named, and changes nothing then. The register set is
// written whole. A register written by itself takes less time, but a load is a small part of any run.
impl Machine {
    // Sets one of the control registers that translation looks at.
    pub fn load_control(&mut self, register: u64, value: u64) -> Result<(), Condition>
        ensures result { result ≡ load_result (with_control register value self.old) }
        ensures registers { self.new ≡ unwrap_or (with_control register value self.old) self.old }
    {
        if !matches!(register, 0 | 1 | 2 | 5 | 7 | 8 | 13) {
            return Err(Condition::BadNumber);
        }
        let mut control = self.control;
        control[register as usize] = value;
        *self = Machine { control, ..*self };
        Ok(())
    }

    // Sets one access register.
    pub fn load_access(&mut self, register: u64, value: u64) -> Result<(), Condition>
        ensures result { result ≡ load_result (with_access register value self.old) }
        ensures registers { self.new ≡ unwrap_or (with_access register value self.old) self.old }
    {
        if register > 15 || value >= 1 << 32 {
            return Err(Condition::BadNumber);
        }
        let mut access = self.access;
        access[register as usize] = value as u32;
        *self = Machine { access, ..*self };
        Ok(())
    }

    // Sets mode, size and key at once.
    pub fn load_mode(&mut self, mode: u64, size: u64, key: u64) -> Result<(), Condition>
        ensures result { result ≡ load_result (with_mode mode size key self.old) }
        ensures registers { self.new ≡ unwrap_or (with_mode mode size key self.old) self.old }
    {
        let mode = Mode::try_from(mode)?;
        let size = AddressSize::try_from(size)?;
        if key > 15 {
            return Err(Condition::BadNumber);
        }
        *self = Machine {
            mode,
            size,
            key: key as u8,
            ..*self
        };
        Ok(())
    }
}
