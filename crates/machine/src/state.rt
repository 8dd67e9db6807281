// The calls that make a machine, set its prefix, put a doubleword and purge a source.
ghost use Rattle.std.specs.Prelude.{◌≡◌, ◌%◌, if◌then◌else◌, MatchBool, not, Ok, Err, OnErr, ◌==◌};
ghost use Rattle.arch.specs.declared.condition.Condition.TheVariants.{BadPrefix};
ghost use Rattle.machine.specs.Law.{StandsAtStart};
ghost use Rattle.machine.specs.Puts.{put_answer, put_of, after_puts, after_puts_under, LayerAfter};
ghost use Rattle.machine.specs.Registers.{zero_registers};
ghost use Rattle.machine.specs.Scene.{held};
ghost use Rattle.machine.specs.Turns.{EmptiesBoth, Purges};
ghost use Rattle.storage.specs.Prefixes.{lawful_prefix, prefixed};

use crate::mode::{AddressSize, Mode};
use crate::registers::Machine;
use crate::sources::Sources;
use arch::call::SourceName;
use arch::condition::Condition;
use lookup::kinds::{AccessRegister, Paging};
use lookup::source::Source;
use storage::prefix::{Prefix, Prefixed};
use storage::storage::Storage;

impl Machine {
    // A machine with zero registers; both sources are purged, whatever they held.
    pub fn new<A: Source<AccessRegister>, P: Source<Paging>>(sources: &mut Sources<A, P>) -> Self
        ensures registers { result ≡ zero_registers }
        ensures sources { EmptiesBoth A.Source P.Source sources.old sources.new }
        ensures starts { StandsAtStart result (held A.Source P.Source sources.new) }
    {
        sources.purge_both();
        Machine {
            mode: Mode::DatOff,
            size: AddressSize::Bits24,
            key: 0,
            prefix: Prefix::zero(),
            control: [0; 16],
            access: [0; 16],
        }
    }

    // Sets the prefix and purges both sources; refuses an unlawful one and changes nothing.
    pub fn set_prefix<S, A: Source<AccessRegister>, P: Source<Paging>>(
        &mut self,
        storage: &mut Prefixed<S>,
        sources: &mut Sources<A, P>,
        prefix: u64,
    ) -> Result<(), Condition>
        ensures result { result ≡ (if lawful_prefix prefix then Ok tt else Err BadPrefix) }
        ensures registers { self.new ≡ (if lawful_prefix prefix
            then record self.old { prefix = prefix } else self.old) }
        ensures storage { storage.new.beneath ≡ storage.old.beneath }
        ensures layer { LayerAfter (not (lawful_prefix prefix)) prefix storage.old storage.new }
        ensures sources { MatchBool (lawful_prefix prefix)
            (EmptiesBoth A.Source P.Source sources.old sources.new) (sources.new ≡ sources.old) }
    {
        let prefix = Prefix::try_from(prefix)?;
        storage.load_prefix(prefix);
        sources.purge_both();
        *self = Machine { prefix, ..*self };
        Ok(())
    }

    // Puts a doubleword at a real address, without protection. It is said both of what lies beneath
    // and of what a fetch through the prefix sees next.
    pub fn put<S: Storage>(
        &mut self,
        storage: &mut Prefixed<S>,
        address: u64,
        value: u64,
    ) -> Result<(), Condition>
        ensures result { result ≡ put_answer
            (prefixed self.old.prefix (S.view storage.old.beneath)) address }
        ensures registers { self.new ≡ self.old }
        ensures real { prefixed self.old.prefix (S.view storage.new.beneath)
            ≡ after_puts (put_of address value)
            (prefixed self.old.prefix (S.view storage.old.beneath)) }
        ensures absolute { S.view storage.new.beneath
            ≡ after_puts_under self.old.prefix (put_of address value) (S.view storage.old.beneath) }
        ensures layer { LayerAfter
            (not (address % 8 == 0)) self.old.prefix storage.old storage.new }
        ensures refused { OnErr result (storage.new.beneath ≡ storage.old.beneath) }
    {
        if address % 8 != 0 {
            return Err(Condition::Unaligned);
        }
        storage.load_prefix(self.prefix);
        storage.put(address, value)
    }

    // Purges the named source and leaves the other.
    pub fn purge<A: Source<AccessRegister>, P: Source<Paging>>(
        &mut self,
        sources: &mut Sources<A, P>,
        source: SourceName,
    )
        ensures registers { self.new ≡ self.old }
        ensures sources { Purges A.Source P.Source source sources.old sources.new }
    {
        sources.purge(source);
    }
}
