// The two sources of a machine.
ghost use Rattle.machine.specs.Turns.{EmptiesBoth, Purges};

use arch::call::SourceName;
use lookup::kinds::{AccessRegister, Paging};
use lookup::source::Source;

// What a translation is of: an address, by an access register. Both stand as they were written:
// what they may be is told by the call.
#[derive(Clone, Copy, PartialEq, Eq, Debug)]
pub struct Operand {
    pub register: u64,
    pub address: u64,
}

// A source of address spaces, by access register, and one of pages.
#[derive(Clone, Copy, Drop)]
pub struct Sources<A, P> {
    pub access: A,
    pub page: P,
}

impl<A: Source<AccessRegister>, P: Source<Paging>> Sources<A, P> {
    // Purges the named source and leaves the other.
    pub fn purge(&mut self, source: SourceName)
        ensures { Purges A.Source P.Source source self.old self.new }
    {
        match source {
            SourceName::AccessRegister => self.access.purge(),
            SourceName::Page => self.page.purge(),
        }
    }

    // Purges both.
    pub fn purge_both(&mut self)
        ensures { EmptiesBoth A.Source P.Source self.old self.new }
    {
        self.access.purge();
        self.page.purge();
    }
}
