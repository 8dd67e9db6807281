// Fetch and store, call by call and in a run, over a stack of sources that no program here uses.
use arch::call::{Call, SourceName};
use arch::condition::Condition;
use arch::record::{BlockKey, Word};
use lookaside::direct_mapped::{DirectMapped, DirectMappedTable};
use lookaside::round_robin::{RoundRobin, RoundRobinTable};
use lookup::kinds::Paging;
use lookup::listed::ask_listed;
use lookup::page::PageKey;
use lookup::source::{Source, TableWalk};
use lookup::trace::CallTrace;
use machine::{Machine, Operand, Outcome, Request, Sources};
use runs::{run, run_lent};
use std::process::Abort;
use std::test::Fail;
use storage::prefix::Prefixed;
use storage::sparse::Sparse;

type Stack = RoundRobin<DirectMapped<RoundRobin<TableWalk>>>;

fn stack() -> Stack {
    RoundRobin {
        table: RoundRobinTable::new(),
        beneath: DirectMapped {
            table: DirectMappedTable::new(),
            beneath: RoundRobin {
                table: RoundRobinTable::new(),
                beneath: TableWalk,
            },
        },
    }
}

fn operand(register: u64, address: u64) -> Operand {
    Operand { register, address }
}

fn stacks() -> Sources<Stack, Stack> {
    Sources {
        access: stack(),
        page: stack(),
    }
}

fn walks() -> Sources<TableWalk, TableWalk> {
    Sources {
        access: TableWalk,
        page: TableWalk,
    }
}

// One segment entry and one page entry, which lead address 103120 to the doubleword at 45120.
fn tables() -> [Word; 3] {
    [
        Word {
            address: 0x10008,
            value: 0x20000,
        },
        Word {
            address: 0x20018,
            value: 0x45000,
        },
        Word {
            address: 0x45120,
            value: 7,
        },
    ]
}

fn table_keys() -> [BlockKey; 3] {
    [
        BlockKey {
            block: 0x10,
            key: 0,
        },
        BlockKey {
            block: 0x20,
            key: 0,
        },
        BlockKey {
            block: 0x45,
            key: 6,
        },
    ]
}

#[test]
fn fetches_and_stores(rt: HostRuntime) {
    let mut words = tables();
    let keys = table_keys();
    let mut storage = Prefixed::new(Sparse {
        words: &mut words,
        keys: &keys,
    });
    let mut sources = Sources {
        access: TableWalk,
        page: stack(),
    };
    let mut machine = Machine::new(&mut sources);
    let mut list = [0; 12];
    assert_eq!(rt; machine.load_control(1, 0x10000), Ok(()));
    assert_eq!(rt; machine.load_mode(1, 2, 3), Ok(()));
    let fetched = machine.fetch(&mut storage, &mut sources, operand(0, 0x103120), &mut list);
    assert_eq!(rt; fetched.result, Ok(7));
    assert_eq!(rt; fetched.count, 2);
    assert_eq!(rt; list[1], 0x20018);
    let stored = machine.store(
        &mut storage,
        &mut sources,
        operand(0, 0x103120),
        9,
        &mut list,
    );
    assert_eq!(rt; stored.result, Ok(()));
    assert_eq!(rt; stored.count, 0);
    let again = machine.fetch(&mut storage, &mut sources, operand(0, 0x103120), &mut list);
    assert_eq!(rt; again.result, Ok(9));
}

#[test]
fn refuses_accesses(rt: HostRuntime) {
    let mut words = [Word {
        address: 0x2000,
        value: 7,
    }];
    let keys = [BlockKey { block: 2, key: 7 }];
    let mut storage = Prefixed::new(Sparse {
        words: &mut words,
        keys: &keys,
    });
    let mut sources = walks();
    let mut machine = Machine::new(&mut sources);
    let mut list = [0; 12];
    let mut few = [0; 11];
    assert_eq!(rt; machine.load_mode(0, 2, 5), Ok(()));
    let number = machine.fetch(&mut storage, &mut sources, operand(16, 0x2001), &mut list);
    assert_eq!(rt; number.result, Err(Condition::BadNumber));
    let unaligned = machine.store(&mut storage, &mut sources, operand(0, 0x2004), 1, &mut few);
    assert_eq!(rt; unaligned.result, Err(Condition::Unaligned));
    let short = machine.fetch(&mut storage, &mut sources, operand(0, 0x2000), &mut few);
    assert_eq!(rt; short.result, Err(Condition::ShortList));
    let absent = machine.fetch(&mut storage, &mut sources, operand(0, 0x2008), &mut list);
    assert_eq!(rt; absent.result, Err(Condition::Addressing));
    let guarded = machine.store(&mut storage, &mut sources, operand(0, 0x2000), 1, &mut list);
    assert_eq!(rt; guarded.result, Err(Condition::Key));
    assert_eq!(rt;
        machine.set_prefix(&mut storage, &mut sources, 0x2000),
        Ok(())
    );
    assert_eq!(rt; machine.load_mode(0, 2, 3), Ok(()));
    let prefixed = machine.fetch(&mut storage, &mut sources, operand(0, 0), &mut list);
    assert_eq!(rt; prefixed.result, Ok(7));
}

// One page source, lent in turn with an access-register source of its own each time: what was found
// through the one loan is held in the other.
#[test]
fn a_source_is_lent(rt: HostRuntime) {
    let mut words = tables();
    let keys = table_keys();
    let mut storage = Prefixed::new(Sparse {
        words: &mut words,
        keys: &keys,
    });
    let mut page = stack();
    let mut first = Sources {
        access: TableWalk,
        page: &mut page,
    };
    let mut machine = Machine::new(&mut first);
    let mut list = [0; 12];
    assert_eq!(rt; machine.load_control(1, 0x10000), Ok(()));
    assert_eq!(rt; machine.load_mode(1, 2, 3), Ok(()));
    let walked = machine.fetch(&mut storage, &mut first, operand(0, 0x103120), &mut list);
    assert_eq!(rt; walked.result, Ok(7));
    assert_eq!(rt; walked.count, 2);
    let mut access = stack();
    let mut second = Sources {
        access: &mut access,
        page: &mut page,
    };
    let held = machine.fetch(&mut storage, &mut second, operand(0, 0x103120), &mut list);
    assert_eq!(rt; held.result, Ok(7));
    assert_eq!(rt; held.count, 0);
    machine.purge(&mut second, SourceName::Page);
    let purged = machine.fetch(&mut storage, &mut second, operand(0, 0x103120), &mut list);
    assert_eq!(rt; purged.count, 2);
    assert_eq!(rt; machine.prefix(), 0);
}

// An ask whose addresses go to the places of a list from the second on.
#[test]
fn an_ask_goes_on_in_a_list(rt: HostRuntime) {
    let mut words = tables();
    let keys = table_keys();
    let storage = Sparse {
        words: &mut words,
        keys: &keys,
    };
    let key = PageKey {
        asce: 0x10000,
        page: 0x103,
    };
    let mut trace = CallTrace::new();
    let mut list = [1; 7];
    let mut used = 1;
    let found = ask_listed::<Paging, _, _, _>(
        &mut TableWalk,
        &storage,
        key,
        &mut trace,
        &mut list,
        &mut used,
    );
    assert_eq!(rt; found.is_ok(), true);
    assert_eq!(rt; used, 3);
    assert_eq!(rt; list[0], 1);
    assert_eq!(rt; list[1], 0x10008);
    assert_eq!(rt; list[2], 0x20018);
    assert_eq!(rt; list[3], 1);
}

// What a fetch of a run came to, and how many doublewords its translation fetched.
fn fetched(
    rt: &impl Abort,
    outcome: Outcome,
    expected: Result<u64, Condition>,
    count: usize,
) -> Result<(), Fail> {
    match outcome {
        Outcome::Fetched(counted) => {
            assert_eq!(rt; counted.result, expected);
            assert_eq!(rt; counted.count, count);
            Ok(())
        }
        _ => Err(Fail::new("no fetch")),
    }
}

// A run of fetches and stores over sources of another make on both sides: one store through the tables, one put
// into them, one purge.
#[test]
fn requests_follow_one_another(rt: HostRuntime) -> Result<(), Fail> {
    let mut words = tables();
    let keys = table_keys();
    let mut storage = Prefixed::new(Sparse {
        words: &mut words,
        keys: &keys,
    });
    let mut sources = stacks();
    let fetch = Request::Fetch {
        register: 0,
        address: 0x103120,
    };
    let requests = [
        Request::Line(Call::LoadControl {
            register: 1,
            value: 0x10000,
        }),
        Request::Line(Call::LoadMode {
            mode: 1,
            size: 2,
            key: 3,
        }),
        fetch,
        Request::Store {
            register: 0,
            address: 0x103120,
            value: 9,
        },
        Request::Line(Call::Put {
            address: 0x20018,
            value: 0x45400,
        }),
        fetch,
        Request::Line(Call::Purge {
            source: SourceName::Page,
        }),
        fetch,
    ];
    let mut outcomes = [Outcome::Purged; 8];
    assert_eq!(rt;
        run(&mut storage, &mut sources, &requests, &mut outcomes,),
        Ok(())
    );
    fetched(&rt, outcomes[2], Ok(7), 2)?;
    fetched(&rt, outcomes[5], Ok(9), 0)?;
    fetched(&rt, outcomes[7], Err(Condition::PageTranslation), 2)
}

// A run over two sources that lie apart: what it found is held in them when it is over.
#[test]
fn a_run_over_lent_sources(rt: HostRuntime) -> Result<(), Fail> {
    let mut words = tables();
    let keys = table_keys();
    let mut storage = Prefixed::new(Sparse {
        words: &mut words,
        keys: &keys,
    });
    let mut access = stack();
    let mut page = stack();
    let calls = [
        Request::Line(Call::LoadControl {
            register: 1,
            value: 0x10000,
        }),
        Request::Line(Call::LoadMode {
            mode: 1,
            size: 2,
            key: 3,
        }),
        Request::Fetch {
            register: 0,
            address: 0x103120,
        },
    ];
    let mut outcomes = [Outcome::Purged; 3];
    let ran = run_lent(&mut storage, &mut access, &mut page, &calls, &mut outcomes);
    assert_eq!(rt; ran, Ok(()));
    fetched(&rt, outcomes[2], Ok(7), 2)?;
    let key = PageKey {
        asce: 0x10000,
        page: 0x103,
    };
    let mut trace = CallTrace::new();
    let held = <Stack as Source<Paging>>::ask(&mut page, &storage, key, &mut trace);
    assert_eq!(rt; held.is_ok(), true);
    assert_eq!(rt; trace.len(), 0);
    Ok(())
}

// The same text over sources of three makes: addresses and exceptions agree where nothing held is old, and counts
// tell the sources apart.
#[test]
fn any_stack_lists(rt: HostRuntime) -> Result<(), Fail> {
    let text =
        "RUN\t1\nD\t10008\t20000\nD\t20018\t45000\nD\t45120\t0\nK\t10\t0\nK\t20\t0\nK\t45\t0\nC\t1\t10000\nM\t1\t2\t0\nT\tF\t0\t103123\nT\tF\t0\t103123\nW\t20018\t45400\nT\tF\t0\t103123\n";
    let over_three = listing::list(rt.alloc(), text.as_bytes(), &mut stacks())?;
    assert_eq!(rt;
        over_three.as_str(),
        "10\tR\t45123\t2\n11\tR\t45123\t0\n12\tW\n13\tR\t45123\t0\n"
    );
    let bare = listing::list(rt.alloc(), text.as_bytes(), &mut walks())?;
    assert_eq!(rt;
        bare.as_str(),
        "10\tR\t45123\t2\n11\tR\t45123\t2\n12\tW\n13\tE\t11\tpage-translation\t2\n"
    );
    Ok(())
}
