// The two kinds of lookup. Each impl spells the fields of its own key and answer: one for both
// would need a trait for those fields that is as long.
ghost use Rattle.lookup.specs.Access.{AccessFits, access_limit, access_walk};
ghost use Rattle.lookup.specs.Orders.{access_conditions, access_finds, page_conditions, page_finds};
ghost use Rattle.lookup.specs.Laws.{access_sees_only_its_trace, access_walks, page_sees_only_its_trace, page_walks};
ghost use Rattle.lookup.specs.Lookups.{access_fresh, page_fresh};
ghost use Rattle.lookup.specs.Pages.{page_limit, page_walk};
ghost use Rattle.lookup.specs.Spelling.{access_key_words, access_answer_words, access_answer_of, page_key_words, page_answer_words, page_answer_of, PageFits};
ghost use Rattle.std.proofs.Common.{rules};

use crate::access::{AccessAnswer, AccessKey};
use crate::kind::Kind;
use crate::page::{PageAnswer, PageKey};
use crate::trace::Trace;
use crate::words::Words;
use crate::{access, page};
use arch::condition::Condition;
use storage::storage::Storage;

// From an access register to its address space.
pub enum AccessRegister {}

impl Kind for AccessRegister {
    type Key = AccessKey;

    type Answer = AccessAnswer;

    ghost fresh = { access_fresh };

    ghost tree = { access_walk };

    ghost limit = { access_limit };

    ghost conditions = { access_conditions };

    ghost finds = { access_finds };

    ghost most_reads = { 7 };

    ghost fits = { AccessFits };

    ghost key_words = { access_key_words };

    ghost answer_words = { access_answer_words };

    ghost answer_of = { access_answer_of };

    ghost walks = { access_walks };

    ghost sees_only_its_trace = { access_sees_only_its_trace };

    ghost distinct = { Prim.search rules };

    ghost answer_back = { Prim.search rules };

    fn walk<S: Storage, T: Trace>(
        storage: &S,
        key: AccessKey,
        trace: &mut T,
    ) -> Result<AccessAnswer, Condition> {
        access::walk(storage, key, trace)
    }

    fn spell(key: AccessKey) -> Words {
        Words {
            first: u64::from(key.eax) * (1 << 32) + u64::from(key.alet),
            second: key.designation,
        }
    }

    fn write(answer: AccessAnswer) -> Words {
        Words {
            first: answer.asce,
            second: u64::from(answer.fetch_only),
        }
    }

    fn read(words: Words) -> AccessAnswer {
        AccessAnswer {
            asce: words.first,
            fetch_only: words.second == 1,
        }
    }
}

// From a page number to its frame.
pub enum Paging {}

impl Kind for Paging {
    type Key = PageKey;

    type Answer = PageAnswer;

    ghost fresh = { page_fresh };

    ghost tree = { page_walk };

    ghost limit = { page_limit };

    ghost conditions = { page_conditions };

    ghost finds = { page_finds };

    ghost most_reads = { 5 };

    ghost fits = { PageFits };

    ghost key_words = { page_key_words };

    ghost answer_words = { page_answer_words };

    ghost answer_of = { page_answer_of };

    ghost walks = { page_walks };

    ghost sees_only_its_trace = { page_sees_only_its_trace };

    ghost distinct = { Prim.search rules };

    ghost answer_back = { Prim.search rules };

    fn walk<S: Storage, T: Trace>(
        storage: &S,
        key: PageKey,
        trace: &mut T,
    ) -> Result<PageAnswer, Condition> {
        page::walk(storage, key, trace)
    }

    fn spell(key: PageKey) -> Words {
        Words {
            first: key.asce,
            second: key.page,
        }
    }

    fn write(answer: PageAnswer) -> Words {
        Words {
            first: answer.frame,
            second: u64::from(answer.protect),
        }
    }

    fn read(words: Words) -> PageAnswer {
        PageAnswer {
            frame: words.first,
            protect: words.second == 1,
        }
    }
}
