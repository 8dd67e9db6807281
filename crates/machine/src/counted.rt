// What comes of a call that lists addresses.
ghost use Rattle.std.specs.Prelude.{◌≡◌, ◌≤◌, length, Err};
ghost use Rattle.machine.specs.Calls.{Reports, traced};

use arch::condition::Condition;
use lookup::trace::CallTrace;

// What came of a call that lists addresses, and how many it listed.
#[derive(Clone, Copy)]
pub struct Counted<T> {
    pub result: Result<T, Condition>,
    pub count: usize,
}

impl<T> Counted<T> {
    // Refused before anything was asked for.
    pub(crate) fn refused(condition: Condition) -> Self
        ensures { result ≡ record { result = Err condition; count = 0 } }
    {
        Counted {
            result: Err(condition),
            count: 0,
        }
    }

    // A result, and the addresses of a trace, which go to the first places of a list.
    pub(crate) fn of(came: Result<T, Condition>, trace: &CallTrace, list: &mut [u64]) -> Self
        requires { 12 ≤ length list.old }
        ensures { Reports (traced came trace.now.items) list.old list.new result }
    {
        let count = trace.len();
        list[..count].copy_from_slice(trace.as_slice());
        Counted {
            result: came,
            count,
        }
    }
}
