// Where a lookup notes the addresses that it asks for.
ghost use Rattle.std.specs.Prelude.{◌≡◌, ℕ, ◌<◌, ◌++◌, ◌∷◌, [], List, length};

use arrayvec::ArrayVec;

// A list of addresses with room for so many, whoever made it.
pub trait Trace {
    // The addresses noted, in order.
    ghost addresses: { Self → List ℕ };

    // How many it has room for.
    ghost room: { ℕ };

    // Notes an address after the others.
    fn note(&mut self, address: u64)
        requires { length (addresses self.old) < room }
        ensures { addresses self.new ≡ addresses self.old ++ (address ∷ []) };

    // The addresses noted, in order, for a source that counts or looks at what is read beneath it.
    fn noted(&self) -> &[u64]
        ensures { result.now ≡ addresses self.now };
}

impl<const N: usize> Trace for ArrayVec<u64, N> {
    ghost addresses = { λ t. t.items };

    ghost room = { N };

    fn note(&mut self, address: u64) {
        self.push(address);
    }

    fn noted(&self) -> &[u64] {
        self.as_slice()
    }
}

// The most doublewords that a call of the machine asks for: seven in the access-register lookup and
// five in the page lookup.
pub const PLACES: usize = 12;

// The addresses that a call asks for.
pub type CallTrace = ArrayVec<u64, PLACES>;
