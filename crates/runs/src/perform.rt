// One call of a machine, made from a value.
ghost use Rattle.machine.specs.declared.request.Request.TheVariants.{Line};
ghost use Rattle.machine.specs.Effects.{Performs};
ghost use Rattle.machine.specs.Law.{GoesOn};
ghost use Rattle.machine.specs.Registers.{AreInRange};

use arch::call::Call;
use lookup::kinds::{AccessRegister, Paging};
use lookup::source::Source;
use lookup::trace::PLACES;
use machine::{Machine, Operand, Outcome, Request, Sources};
use storage::prefix::Prefixed;
use storage::storage::Storage;

// Makes the call of a line of a run text, with places enough for its list.
fn line<S: Storage, A: Source<AccessRegister>, P: Source<Paging>>(
    machine: &mut Machine,
    storage: &mut Prefixed<S>,
    sources: &mut Sources<A, P>,
    call: Call,
) -> Outcome
    ensures { Performs S.Storage A.Source P.Source (Line call) machine.old storage.old sources.old
        result machine.new storage.new sources.new }
{
    match call {
        Call::LoadControl { register, value } => Outcome::Loaded(machine.load_control(
            register, value,
        )),
        Call::LoadAccess { register, value } => Outcome::Loaded(machine.load_access(
            register, value,
        )),
        Call::LoadMode { mode, size, key } => Outcome::Loaded(machine.load_mode(mode, size, key)),
        Call::SetPrefix { prefix } => {
            Outcome::Loaded(machine.set_prefix(storage, sources, prefix))
        }
        Call::Translate {
            access,
            register,
            address,
        } => {
            let operand = Operand { register, address };
            let mut list = [0; PLACES];
            Outcome::Translated(machine.translate(storage, sources, access, operand, &mut list))
        }
        Call::Put { address, value } => Outcome::Put(machine.put(storage, address, value)),
        Call::Purge { source } => {
            machine.purge(sources, source);
            Outcome::Purged
        }
    }
}

// Makes a call, with places enough for its list. (Each call makes the list that it lends: a function
// for both would have to hand it in and out.)
fn perform<S: Storage, A: Source<AccessRegister>, P: Source<Paging>>(
    machine: &mut Machine,
    storage: &mut Prefixed<S>,
    sources: &mut Sources<A, P>,
    request: Request,
) -> Outcome
    ensures { Performs S.Storage A.Source P.Source request machine.old storage.old sources.old
        result machine.new storage.new sources.new }
{
    match request {
        Request::Line(call) => line(machine, storage, sources, call),
        Request::Fetch { register, address } => {
            let operand = Operand { register, address };
            let mut list = [0; PLACES];
            Outcome::Fetched(machine.fetch(storage, sources, operand, &mut list))
        }
        Request::Store {
            register,
            address,
            value,
        } => {
            let operand = Operand { register, address };
            let mut list = [0; PLACES];
            Outcome::Stored(machine.store(storage, sources, operand, value, &mut list))
        }
    }
}

// Makes a call. Whatever was called before, from the new call on: where the machine and its sources
// stand as the law of runs has it, the call keeps the law, and they stand so after it. The machine's
// registers are in their ranges then.
pub fn answer<S: Storage, A: Source<AccessRegister>, P: Source<Paging>>(
    machine: &mut Machine,
    storage: &mut Prefixed<S>,
    sources: &mut Sources<A, P>,
    request: Request,
) -> Outcome
    ensures performs { Performs S.Storage A.Source P.Source request
        machine.old storage.old sources.old
        result machine.new storage.new sources.new }
    ensures law { GoesOn A.Source P.Source
        machine.old (S.view storage.old.beneath) sources.old request
        result machine.new (S.view storage.new.beneath) sources.new }
    ensures in_range { AreInRange machine.new }
{
    let outcome = perform(machine, storage, sources, request);
    // A clause sees a machine's registers and not the ranges that its type keeps them in. The prefix
    // is asked for since its contract says them.
    let _ = machine.prefix();
    outcome
}
