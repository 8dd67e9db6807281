// The page lookup.
ghost use Rattle.std.specs.Prelude.{◌≡◌, ◌+◌, ◌*◌, ◌<◌, ◌≤◌, length};
ghost use Rattle.arch.specs.Walks.{Walks};
ghost use Rattle.lookup.specs.Pages.{page_limit, level_condition, index as table_index, outside, table_below, table_of, valid_entry, table_entry as entry_of, page_entry as final_entry, descend as descending, through_tables as by_tables, page_walk};

use crate::step::{check, read};
use crate::trace::Trace;
use arch::bits::{field, flag};
use arch::condition::Condition;
use storage::storage::Storage;

// Addresses of translation tables stay below 2^64.
const LIMIT: u128 = 1 << 64;

// What a page lookup asks for: the address-space-control element and the page number, bits 0-51 of
// the address.
#[derive(Clone, Copy, PartialEq, Eq, Debug)]
pub struct PageKey {
    pub asce: u64,
    pub page: u64,
}

// What it finds: the frame number, and whether the page is protected.
#[derive(Clone, Copy, PartialEq, Eq, Debug)]
pub struct PageAnswer {
    pub frame: u64,
    pub protect: bool,
}

// A region or segment table, and the quarters of it that are there, from the offset to the length.
#[derive(Clone, Copy)]
struct Table {
    origin: u64,
    offset: u64,
    length: u64,
}

impl Table {
    // The table that a region entry designates.
    fn below(entry: u64) -> Self
        ensures { result ≡ table_below entry }
    {
        Table {
            origin: field(entry, 0, 51) * 4096,
            offset: field(entry, 56, 57),
            length: field(entry, 62, 63),
        }
    }

    // The table that an element designates, which has no offset.
    fn of(asce: u64) -> Self
        ensures { result ≡ table_of asce }
    {
        Table {
            origin: field(asce, 0, 51) * 4096,
            offset: 0,
            length: field(asce, 62, 63),
        }
    }

    // The index's first two bits lie past the length or before the offset.
    fn lacks(self, index: u64) -> bool
        ensures { result ≡ outside self index }
    {
        let quarter = index / 512;
        quarter > self.length || quarter < self.offset
    }
}

// What is met where a table of a level has no valid entry: 0 segment, 1 to 3 the regions. A level
// stays a number: it is the table type that an entry carries, and the place of an index is computed
// from it.
fn condition_of(level: u8) -> Condition
    ensures { result ≡ level_condition level }
{
    match level {
        0 => Condition::Segment,
        1 => Condition::RegionThird,
        2 => Condition::RegionSecond,
        _ => Condition::RegionFirst,
    }
}

// The index into a table of a level: 11 bits of the page number.
fn index(level: u8, page: u64) -> u64
    requires { level < 4 }
    ensures { result ≡ table_index level page }
{
    (page >> (8 + 11 * level)) % 2048
}

// A valid entry, of the type of its table.
fn valid_entry<S: Storage, T: Trace>(
    storage: &S,
    level: u8,
    at: u128,
    trace: &mut T,
) -> Result<u64, Condition>
    requires { length (T.addresses trace.old) + 1 ≤ T.room }
    ensures { Walks 1 page_limit (S.view storage.now).word (valid_entry level at)
        (T.addresses trace.old) (T.addresses trace.new) result }
{
    let entry = read(storage, at, LIMIT, trace)?;
    check(condition_of(level), flag(entry, 58))?;
    check(
        Condition::TranslationSpecification,
        field(entry, 60, 61) != u64::from(level),
    )?;
    Ok(entry)
}

// The entry of a table that a page number leads to.
fn table_entry<S: Storage, T: Trace>(
    storage: &S,
    level: u8,
    table: Table,
    page: u64,
    trace: &mut T,
) -> Result<u64, Condition>
    requires level { level < 4 }
    requires room { length (T.addresses trace.old) + 1 ≤ T.room }
    ensures { Walks 1 page_limit (S.view storage.now).word (entry_of level table page)
        (T.addresses trace.old) (T.addresses trace.new) result }
{
    let index = index(level, page);
    check(condition_of(level), table.lacks(index))?;
    valid_entry(
        storage,
        level,
        u128::from(table.origin) + 8 * u128::from(index),
        trace,
    )
}

// The page entry under a segment entry.
fn page_entry<S: Storage, T: Trace>(
    storage: &S,
    segment: u64,
    page: u64,
    trace: &mut T,
) -> Result<PageAnswer, Condition>
    requires { length (T.addresses trace.old) + 1 ≤ T.room }
    ensures { Walks 1 page_limit (S.view storage.now).word (final_entry segment page)
        (T.addresses trace.old) (T.addresses trace.new) result }
{
    let origin = u128::from(field(segment, 0, 52)) * 2048;
    let entry = read(storage, origin + u128::from(8 * (page % 256)), LIMIT, trace)?;
    check(Condition::PageTranslation, flag(entry, 53))?;
    check(
        Condition::TranslationSpecification,
        flag(entry, 52) | flag(entry, 55),
    )?;
    Ok(PageAnswer {
        frame: field(entry, 0, 51),
        protect: flag(segment, 54) | flag(entry, 54),
    })
}

// A segment entry, which is not common where the space is private, and the page entry under it.
fn segment<S: Storage, T: Trace>(
    storage: &S,
    table: Table,
    private: bool,
    page: u64,
    trace: &mut T,
) -> Result<PageAnswer, Condition>
    requires { length (T.addresses trace.old) + 2 ≤ T.room }
    ensures { Walks 2 page_limit (S.view storage.now).word (descending 0 table private page)
        (T.addresses trace.old) (T.addresses trace.new) result }
{
    let entry = table_entry(storage, 0, table, page, trace)?;
    check(
        Condition::TranslationSpecification,
        flag(entry, 59) & private,
    )?;
    page_entry(storage, entry, page, trace)
}

// From a table of some level down to the page.
fn descend<S: Storage, T: Trace>(
    storage: &S,
    level: u8,
    table: Table,
    private: bool,
    page: u64,
    trace: &mut T,
) -> Result<PageAnswer, Condition>
    requires level { level < 4 }
    requires room { length (T.addresses trace.old) + (level + 2) ≤ T.room }
    ensures { Walks (level + 2) page_limit (S.view storage.now).word
        (descending level table private page)
        (T.addresses trace.old) (T.addresses trace.new) result }
{
    if level == 0 {
        return segment(storage, table, private, page, trace);
    }
    let entry = table_entry(storage, level, table, page, trace)?;
    descend(
        storage,
        level - 1,
        Table::below(entry),
        private,
        page,
        trace,
    )
}

// Through the tables that an element designates.
fn through_tables<S: Storage, T: Trace>(
    storage: &S,
    asce: u64,
    page: u64,
    trace: &mut T,
) -> Result<PageAnswer, Condition>
    requires { length (T.addresses trace.old) + 5 ≤ T.room }
    ensures { Walks 5 page_limit (S.view storage.now).word (by_tables asce page)
        (T.addresses trace.old) (T.addresses trace.new) result }
{
    let level = field(asce, 60, 61) as u8;
    check(Condition::AsceType, (page >> (8 + 11 * level)) / 2048 != 0)?;
    descend(storage, level, Table::of(asce), flag(asce, 55), page, trace)
}

// The whole lookup, walked afresh. In a real space the frame is the page, unprotected.
pub(crate) fn walk<S: Storage, T: Trace>(
    storage: &S,
    key: PageKey,
    trace: &mut T,
) -> Result<PageAnswer, Condition>
    requires { length (T.addresses trace.old) + 5 ≤ T.room }
    ensures { Walks 5 page_limit (S.view storage.now).word (page_walk key)
        (T.addresses trace.old) (T.addresses trace.new) result }
{
    if flag(key.asce, 58) {
        return Ok(PageAnswer {
            frame: key.page,
            protect: false,
        });
    }
    through_tables(storage, key.asce, key.page, trace)
}
