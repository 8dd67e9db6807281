// The register set.
ghost use Rattle.std.specs.Prelude.{◌≡◌};
ghost use Rattle.machine.specs.Registers.{AreInRange};

use crate::mode::{AddressSize, Mode};
use std::marker::Model;
use storage::prefix::Prefix;

// A machine is its registers. The key is 0 to f; of the sixteen control registers only 0, 1, 2, 5,
// 7, 8 and 13, which translation looks at, are ever loaded.
#[derive(Drop)]
pub struct Machine {
    pub(crate) mode: Mode,
    pub(crate) size: AddressSize,
    pub(crate) key: u8,
    pub(crate) prefix: Prefix,
    pub(crate) control: [u64; 16],
    pub(crate) access: [u32; 16],
}

impl Model for Machine {
    ghost use Rattle.machine.specs.Registers.{Registers, IsInRange};

    ghost Value = { Registers };

    ghost view = { λ m. record {
      mode = m.mode;
      size = m.size;
      key = m.key;
      prefix = m.prefix;
      control = m.control;
      access = m.access;
    } };

    ghost invariant = { λ m. IsInRange m.key m.control m.access };
}

impl Machine {
    // The prefix. Whatever calls a machine has answered, its registers are in their ranges: whoever
    // holds one sees the registers alone, and learns it here.
    pub fn prefix(&self) -> u64
        ensures prefix { result ≡ self.now.prefix }
        ensures in_range { AreInRange self.now }
    {
        self.prefix.get()
    }
}
