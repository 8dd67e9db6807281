// The reader and the writer of run texts, and both round trips: texts and runs at their limits, and
// each way in which a line can be misspelt.
use arch::call::{Access, Call, SourceName};
use arch::condition::Condition;
use arch::record::{BlockKey, Word};
use runtext::places::Places;
use runtext::run::Run;
use runtext::trip::{reopened, restored};
use runtext::{Counts, Refusal, read, write};
use std::alloc::{AllocError, Global};
use std::process::Abort;
use std::test::Fail;

const HEADER: &str = "RUN\t1\n";

// A run with every kind of line, and its text.
const WORDS: [Word; 1] = [Word {
    address: 0x10008,
    value: 0x20000,
}];

const KEYS: [BlockKey; 1] = [BlockKey {
    block: 0x10,
    key: 0x1f,
}];

const CALLS: [Call; 9] = [
    Call::LoadControl {
        register: 1,
        value: 0x10000,
    },
    Call::LoadAccess {
        register: 3,
        value: 0x50002,
    },
    Call::LoadMode {
        mode: 1,
        size: 2,
        key: 0,
    },
    Call::SetPrefix { prefix: 0x4000 },
    Call::Translate {
        access: Access::Fetch,
        register: 0,
        address: 0x103123,
    },
    Call::Translate {
        access: Access::Store,
        register: 15,
        address: u64::MAX,
    },
    Call::Put {
        address: 0x20018,
        value: 0x45400,
    },
    Call::Purge {
        source: SourceName::AccessRegister,
    },
    Call::Purge {
        source: SourceName::Page,
    },
];

const TEXT: &str =
    "RUN\t1\nD\t10008\t20000\nK\t10\t1f\nC\t1\t10000\nA\t3\t50002\nM\t1\t2\t0\nX\t4000\nT\tF\t0\t103123\nT\tS\tf\tffffffffffffffff\nW\t20018\t45400\nZ\tA\nZ\tT\n";

// What stands in a place or a byte before a call, and in no run or text here.
const WORD: Word = Word {
    address: 1,
    value: 0x7777,
};

const KEY: BlockKey = BlockKey {
    block: 0x7777,
    key: 0xff,
};

const CALL: Call = Call::SetPrefix { prefix: 0x7777 };

const BYTE: u8 = 0;

// Places for a run, and bytes for a text.
#[derive(PartialEq, Drop)]
struct Lent {
    words: Vec<Word>,
    keys: Vec<BlockKey>,
    calls: Vec<Call>,
    bytes: Vec<u8>,
}

fn lend(heap: Global, places: Counts, bytes: usize) -> Result<Lent, AllocError> {
    Ok(Lent {
        words: vec![in heap; WORD; places.words]?,
        keys: vec![in heap; KEY; places.keys]?,
        calls: vec![in heap; CALL; places.calls]?,
        bytes: vec![in heap; BYTE; bytes]?,
    })
}

fn places(words: usize, keys: usize, calls: usize) -> Counts {
    Counts { words, keys, calls }
}

fn refusal(condition: Condition, line: usize) -> Refusal {
    Refusal { condition, line }
}

// A text is read with these places, and written out again into as many bytes.
fn accepted(rt: &impl Abort, heap: Global, text: &str, places: Counts) -> Result<(), Fail> {
    let mut lent = lend(heap, places, text.len())?;
    let result = reopened(
        text.as_bytes(),
        &mut Places {
            words: &mut lent.words,
            keys: &mut lent.keys,
            calls: &mut lent.calls,
        },
        &mut lent.bytes,
    );
    assert_eq!(rt; result, Ok(text.len()), "{}", text);
    assert!(rt; lent.bytes.as_slice() == text.as_bytes(), "{}", text);
    Ok(())
}

// A text of these pieces is refused so with these places, and leaves them as they were.
fn refused(
    rt: &impl Abort,
    heap: Global,
    pieces: &[&str],
    places: Counts,
    why: Refusal,
) -> Result<(), Fail> {
    let text = joined(heap, pieces)?;
    let mut lent = lend(heap, places, 0)?;
    let result = read(
        text.as_bytes(),
        &mut Places {
            words: &mut lent.words,
            keys: &mut lent.keys,
            calls: &mut lent.calls,
        },
    );
    assert_eq!(rt; result, Err(why), "{}", text.as_str());
    assert!(rt; lent == lend(heap, places, 0)?, "{}", text.as_str());
    Ok(())
}

// A place of each sort is enough for the line, which is misspelt or out of order.
fn bad_text(rt: &impl Abort, heap: Global, pieces: &[&str], line: usize) -> Result<(), Fail> {
    refused(
        rt,
        heap,
        pieces,
        places(1, 1, 1),
        refusal(Condition::BadText, line),
    )
}

fn joined(heap: Global, pieces: &[&str]) -> Result<String, AllocError> {
    let mut text = String::new(heap);
    for piece in pieces.iter() {
        text.push_str(*piece)?;
    }
    Ok(text)
}

// Lines over and over, after the header.
fn repeated(heap: Global, rows: &[(&str, usize)]) -> Result<String, AllocError> {
    let mut text = String::from_str(heap, HEADER)?;
    for row in rows.iter() {
        for _ in 0..row.1 {
            text.push_str(row.0)?;
        }
    }
    Ok(text)
}

// What stands before and after each number of a line, but for the key of a block.
const FIELDS: [(&str, &str); 15] = [
    ("D\t", "\t0\n"),
    ("D\t0\t", "\n"),
    ("K\t", "\t0\n"),
    ("C\t", "\t0\n"),
    ("C\t0\t", "\n"),
    ("A\t", "\t0\n"),
    ("A\t0\t", "\n"),
    ("M\t", "\t0\t0\n"),
    ("M\t0\t", "\t0\n"),
    ("M\t0\t0\t", "\n"),
    ("X\t", "\n"),
    ("T\tF\t", "\t0\n"),
    ("T\tS\t0\t", "\n"),
    ("W\t", "\t0\n"),
    ("W\t0\t", "\n"),
];

#[test]
fn numbers_of_each_field(rt: HostRuntime) -> Result<(), Fail> {
    let heap = rt.alloc();
    let good = ["0", "8", "abcdef9876543210", "fffffffffffffff8"];
    let bad = [
        "",
        "00",
        "08",
        "-8",
        "+8",
        " 8",
        "8 ",
        "A8",
        "F8",
        "0x8",
        "g8",
        "8\t8",
        "8,8",
        "10000000000000000",
    ];
    for field in FIELDS.iter() {
        for number in good.iter() {
            let text = joined(heap, &[HEADER, field.0, *number, field.1])?;
            accepted(&rt, heap, text.as_str(), places(1, 1, 1))?;
        }
        for number in bad.iter() {
            bad_text(&rt, heap, &[HEADER, field.0, *number, field.1], 2)?;
        }
    }
    Ok(())
}

// What may stand about no line: a field or a separator more, another end of the line, or none.
const ABOUT: [(&str, &str); 8] = [
    ("", "\t0\n"),
    ("", "\t\n"),
    ("", " \n"),
    ("", "\r\n"),
    ("", ""),
    (" ", "\n"),
    ("\t", "\n"),
    ("X", "\n"),
];

const LINES: [&str; 11] = [
    "D\t0\t0",
    "K\t0\t0",
    "C\t0\t0",
    "A\t0\t0",
    "M\t0\t0\t0",
    "X\t0",
    "T\tF\t0\t0",
    "T\tS\t0\t0",
    "W\t0\t0",
    "Z\tA",
    "Z\tT",
];

#[test]
fn what_stands_about_a_line(rt: HostRuntime) -> Result<(), Fail> {
    let heap = rt.alloc();
    for about in ABOUT.iter() {
        bad_text(&rt, heap, &[about.0, "RUN\t1", about.1], 1)?;
        for line in LINES.iter() {
            bad_text(&rt, heap, &[HEADER, about.0, *line, about.1], 2)?;
        }
    }
    Ok(())
}

// No first line, and no line after it: a field is missing or empty, a letter is another, a separator
// is no tab.
const HEADERS: [&str; 8] = [
    "RUN", "RUN\t", "RUN\t01", "RUN\t11", "run\t1", "RUNS\t1", "D\t0\t0", "Z\tA",
];

const MISSPELT: [&str; 31] = [
    "K\t0",
    "K\t0\t",
    "K\t0\t21",
    "K\t0\t01",
    "K\t0\t1F",
    "C\t1",
    "A\t1",
    "M\t0",
    "M\t0\t0",
    "X",
    "T\tF",
    "T\tF\t0",
    "T\t0\t0",
    "T\t\t0\t0",
    "T\tFS\t0\t0",
    "T\tf\t0\t0",
    "T\tA\t0\t0",
    "W\t8",
    "Z",
    "Z\t",
    "Z\tAT",
    "Z\ta",
    "Z\tF",
    "Z\t0",
    "DD\t0\t0",
    "D\t1\t0",
    "D 0 0",
    "D\t0 0",
    "X 0",
    "T F 0 0",
    "Z A",
];

#[test]
fn lines_misspelt_or_out_of_order(rt: HostRuntime) -> Result<(), Fail> {
    let heap = rt.alloc();
    for line in HEADERS.iter() {
        bad_text(&rt, heap, &[*line, "\n"], 1)?;
    }
    for line in MISSPELT.iter() {
        bad_text(&rt, heap, &[HEADER, *line, "\n"], 2)?;
    }
    for call in &LINES[2..] {
        bad_text(&rt, heap, &[HEADER, *call, "\n", "D\t0\t0\n"], 3)?;
        bad_text(&rt, heap, &[HEADER, *call, "\n", "K\t0\t0\n"], 3)?;
    }
    Ok(())
}

// Texts, the places lent for them, and the line that finds none.
const UNPLACED: [(&str, (usize, usize, usize), usize); 13] = [
    (TEXT, (0, 1, 9), 2),
    (TEXT, (1, 0, 9), 3),
    (TEXT, (1, 1, 8), 12),
    (TEXT, (0, 0, 0), 2),
    ("RUN\t1\nD\t0\t0\nD\t0\t0\nK\t0\t0\n", (1, 0, 0), 3),
    ("RUN\t1\nK\t0\t0\nK\t0\t0\n", (1, 1, 1), 3),
    // misspelt, or without its end
    ("RUN\t1\nD\t0\t0\nD\tzz\n", (1, 1, 1), 3),
    ("RUN\t1\nK\n", (1, 0, 1), 2),
    ("RUN\t1\nX\t0\nX", (1, 1, 1), 3),
    // out of order
    ("RUN\t1\nD\t0\t0\nX\t0\nD\t0\t0\n", (1, 1, 1), 4),
    ("RUN\t1\nX\t0\nK\t0\t0\n", (1, 0, 1), 3),
    ("D\t0\t0\n", (0, 1, 1), 1),
    ("Z", (1, 1, 0), 1),
];

#[test]
fn lines_that_find_no_place(rt: HostRuntime) -> Result<(), Fail> {
    let heap = rt.alloc();
    accepted(&rt, heap, TEXT, places(1, 1, 9))?;
    for case in UNPLACED.iter() {
        let lent = places(case.1.0, case.1.1, case.1.2);
        refused(
            &rt,
            heap,
            &[case.0],
            lent,
            refusal(Condition::TooMuch, case.2),
        )?;
    }
    Ok(())
}

#[test]
fn texts_of_the_most_lines(rt: HostRuntime) -> Result<(), Fail> {
    let heap = rt.alloc();
    let more = places(1100, 300, 2);
    let most = repeated(
        heap,
        &[("D\t0\t0\n", 1024), ("K\t0\t0\n", 256), ("X\t0\n", 2)],
    )?;
    accepted(&rt, heap, most.as_str(), places(1024, 256, 2))?;
    accepted(&rt, heap, most.as_str(), more)?;
    let cases = [
        (("D\t0\t0\n", 1025), "", 1026),
        (("D\t0\t0\n", 1024), "D\tzz\n", 1026),
        (("D\t0\t0\n", 1024), "X\t0\nD\t0\t0\n", 1027),
        (("K\t0\t0\n", 257), "", 258),
        (("K\t0\t0\n", 256), "K", 258),
        (("K\t0\t0\n", 256), "X\t0\nK\t0\t0\n", 259),
    ];
    for case in cases.iter() {
        let text = repeated(heap, &[case.0, (case.1, 1)])?;
        let why = refusal(Condition::TooMuch, case.2);
        refused(&rt, heap, &[text.as_str()], more, why)?;
    }
    Ok(())
}

#[test]
fn texts_of_the_most_bytes(rt: HostRuntime) -> Result<(), Fail> {
    let heap = rt.alloc();
    // 6 + 6 + 4 * 16381 bytes, and one more: 6 + 6 + 5 + 4 * 16380
    let most = repeated(heap, &[("D\t0\t0\n", 1), ("X\t0\n", 16381)])?;
    let over = repeated(heap, &[("D\t0\t0\n", 1), ("X\t10\n", 1), ("X\t0\n", 16380)])?;
    assert!(rt; most.len() == 65536 && over.len() == 65537);
    let enough = places(1, 0, 16381);
    let first = refusal(Condition::TooMuch, 1);
    let last = refusal(Condition::TooMuch, 16383);
    accepted(&rt, heap, most.as_str(), enough)?;
    refused(&rt, heap, &[over.as_str()], enough, first)?;
    refused(&rt, heap, &[most.as_str()], places(1, 0, 16380), last)?;
    let mut lent = lend(heap, enough, 65535)?;
    let result = reopened(
        most.as_bytes(),
        &mut Places {
            words: &mut lent.words,
            keys: &mut lent.keys,
            calls: &mut lent.calls,
        },
        &mut lent.bytes,
    );
    assert_eq!(rt; result, Err(first));
    assert!(rt; lent == lend(heap, enough, 65535)?);
    Ok(())
}

#[test]
fn a_buffer_that_just_fits(rt: HostRuntime) -> Result<(), Fail> {
    let mut text = vec![in rt.alloc(); BYTE; TEXT.len()]?;
    let run = Run {
        words: &WORDS,
        keys: &KEYS,
        calls: &CALLS,
    };
    assert_eq!(rt; write(&run, &mut text), Ok(TEXT.len()));
    assert!(rt; text.as_slice() == TEXT.as_bytes());
    Ok(())
}

// The writer refuses a run so, with these records and the calls, and leaves the buffer as it was.
fn unwritten(
    rt: &impl Abort,
    heap: Global,
    words: &[Word],
    keys: &[BlockKey],
    room: usize,
    why: Refusal,
) -> Result<(), Fail> {
    let mut text = vec![in heap; BYTE; room]?;
    let run = Run {
        words,
        keys,
        calls: &CALLS,
    };
    assert_eq!(rt; write(&run, &mut text), Err(why));
    assert!(rt; text == vec![in heap; BYTE; room]?);
    Ok(())
}

#[test]
fn runs_that_are_not_written(rt: HostRuntime) -> Result<(), Fail> {
    let heap = rt.alloc();
    let between = Word {
        address: 9,
        value: 0,
    };
    let six_bits = BlockKey { block: 0, key: 32 };
    let first = refusal(Condition::TooMuch, 1);
    unwritten(&rt, heap, &WORDS, &KEYS, TEXT.len() - 1, first)?;
    unwritten(&rt, heap, &[between], &[six_bits], 5, first)?;
    let third = refusal(Condition::BadText, 3);
    unwritten(&rt, heap, &[WORDS[0], between], &KEYS, 4096, third)?;
    unwritten(&rt, heap, &WORDS, &[six_bits], 4096, third)?;
    let word = refusal(Condition::TooMuch, 1026);
    let mut words = vec![in heap; WORDS[0]; 1024]?;
    words.push(between)?;
    unwritten(&rt, heap, &words, &KEYS, 65536, word)?;
    let key = refusal(Condition::TooMuch, 259);
    unwritten(&rt, heap, &WORDS, &[KEYS[0]; 257], 4096, key)
}

// The run with every kind of line, written out and read again with these places and bytes.
fn again(lent: &mut Lent) -> Result<Counts, Refusal> {
    restored(
        &Run {
            words: &WORDS,
            keys: &KEYS,
            calls: &CALLS,
        },
        &mut lent.bytes,
        &mut Places {
            words: &mut lent.words,
            keys: &mut lent.keys,
            calls: &mut lent.calls,
        },
    )
}

#[test]
fn a_run_is_restored(rt: HostRuntime) -> Result<(), Fail> {
    let heap = rt.alloc();
    let mut lent = lend(heap, places(1, 1, 9), TEXT.len())?;
    assert_eq!(rt; again(&mut lent), Ok(places(1, 1, 9)));
    let run = Lent {
        words: WORDS.to_vec(heap)?,
        keys: KEYS.to_vec(heap)?,
        calls: CALLS.to_vec(heap)?,
        bytes: TEXT.as_bytes().to_vec(heap)?,
    };
    assert!(rt; lent == run);
    Ok(())
}

#[test]
fn runs_that_are_not_restored(rt: HostRuntime) -> Result<(), Fail> {
    let heap = rt.alloc();
    let cases = [
        ((0, 1, 9), TEXT.len(), 2),
        ((1, 0, 9), TEXT.len(), 3),
        ((1, 1, 8), TEXT.len(), 12),
        ((1, 1, 9), TEXT.len() - 1, 1),
        ((0, 0, 0), TEXT.len() - 1, 1),
    ];
    for case in cases.iter() {
        let few = places(case.0.0, case.0.1, case.0.2);
        let mut lent = lend(heap, few, case.1)?;
        assert_eq!(rt; again(&mut lent), Err(refusal(Condition::TooMuch, case.2)));
        assert!(rt; lent == lend(heap, few, case.1)?);
    }
    Ok(())
}
