// From the mode and an access register to an address space. Each step has the same clauses, of what
// it gives and of what it asks the source: the step before it sees nothing else of it.
ghost use Rattle.std.specs.Prelude.{◌≡◌, ◌+◌, ◌<◌, ◌≤◌, false, length, Some};
ghost use Rattle.arch.specs.Walks.{Gives};
ghost use Rattle.lookup.specs.Lookups.{access_asks};
ghost use Rattle.machine.specs.Translation.{access_key as key_of, looked_up, space_of_token, space_of_register, space_by_mode, token_asks, register_asks, mode_asks};
ghost use Rattle.machine.specs.Turns.{AsksAccess};

use crate::mode::Mode;
use crate::registers::Machine;
use arch::bits::{field, flag};
use arch::condition::Condition;
use lookup::access::{AccessAnswer, AccessKey};
use lookup::kinds::AccessRegister;
use lookup::source::Source;
use lookup::trace::CallTrace;
use storage::storage::Storage;

// A space whose element a control register holds.
fn held_in(asce: u64) -> Option<AccessAnswer>
    ensures { result ≡ Some (record { asce = asce; fetch_only = false }) }
{
    Some(AccessAnswer {
        asce,
        fetch_only: false,
    })
}

impl Machine {
    // What a token asks of the access-register lookup.
    fn access_key(&self, alet: u32) -> AccessKey
        ensures { result ≡ key_of self.now alet }
    {
        let origin = if flag(u64::from(alet), 39) {
            self.control[5]
        } else {
            self.control[2]
        };
        AccessKey {
            alet,
            eax: field(self.control[8], 32, 47) as u16,
            designation: field(origin, 33, 57) * 64 + 16,
        }
    }

    // A space by lookup.
    fn looked_up<S: Storage, A: Source<AccessRegister>>(
        &self,
        storage: &S,
        source: &mut A,
        alet: u32,
        trace: &mut CallTrace,
    ) -> Result<Option<AccessAnswer>, Condition>
        requires { length trace.old.items + 7 ≤ 12 }
        ensures gives { Gives 7
            (looked_up (access_asks (A.shows source.old) (S.view storage.now).word)
            (key_of self.now alet))
            trace.old.items trace.new.items result }
        ensures asks { AsksAccess A.Source (S.view storage.now)
            (Some (key_of self.now alet)) source.old source.new }
    {
        let found = source.ask(storage, self.access_key(alet), trace)?;
        Ok(Some(found))
    }

    // The space of a token: 0 the primary, 1 the secondary, any other by lookup.
    fn space_of_token<S: Storage, A: Source<AccessRegister>>(
        &self,
        storage: &S,
        source: &mut A,
        alet: u32,
        trace: &mut CallTrace,
    ) -> Result<Option<AccessAnswer>, Condition>
        requires { length trace.old.items + 7 ≤ 12 }
        ensures gives { Gives 7
            (space_of_token self.now
            (access_asks (A.shows source.old) (S.view storage.now).word) alet)
            trace.old.items trace.new.items result }
        ensures asks { AsksAccess A.Source (S.view storage.now)
            (token_asks self.now alet) source.old source.new }
    {
        match alet {
            0 => Ok(held_in(self.control[1])),
            1 => Ok(held_in(self.control[7])),
            _ => self.looked_up(storage, source, alet, trace),
        }
    }

    // Access register 0 stands for the primary space, whatever it holds.
    fn space_of_register<S: Storage, A: Source<AccessRegister>>(
        &self,
        storage: &S,
        source: &mut A,
        register: usize,
        trace: &mut CallTrace,
    ) -> Result<Option<AccessAnswer>, Condition>
        requires register { register < 16 }
        requires room { length trace.old.items + 7 ≤ 12 }
        ensures gives { Gives 7
            (space_of_register self.now
            (access_asks (A.shows source.old) (S.view storage.now).word) register)
            trace.old.items trace.new.items result }
        ensures asks { AsksAccess A.Source (S.view storage.now)
            (register_asks self.now register) source.old source.new }
    {
        if register == 0 {
            return Ok(held_in(self.control[1]));
        }
        self.space_of_token(storage, source, self.access[register], trace)
    }

    // The address space by mode, none with DAT off.
    pub(crate) fn space<S: Storage, A: Source<AccessRegister>>(
        &self,
        storage: &S,
        source: &mut A,
        register: usize,
        trace: &mut CallTrace,
    ) -> Result<Option<AccessAnswer>, Condition>
        requires register { register < 16 }
        requires room { length trace.old.items + 7 ≤ 12 }
        ensures gives { Gives 7
            (space_by_mode self.now.mode self.now
            (access_asks (A.shows source.old) (S.view storage.now).word) register)
            trace.old.items trace.new.items result }
        ensures asks { AsksAccess A.Source (S.view storage.now)
            (mode_asks self.now.mode self.now register) source.old source.new }
    {
        match self.mode {
            Mode::DatOff => Ok(None),
            Mode::Primary => Ok(held_in(self.control[1])),
            Mode::AccessRegister => self.space_of_register(storage, source, register, trace),
            Mode::Secondary => Ok(held_in(self.control[7])),
            Mode::Home => Ok(held_in(self.control[13])),
        }
    }
}
