// The conditions that a call can meet, each with the code and the name that a listing prints.
ghost use Rattle.std.specs.Prelude.{◌≡◌, Some};
ghost use Rattle.arch.specs.Conditions.{code_of, name_of, code_and_name};

use std::fmt;
use std::fmt::{Display, Formatter, Write};

// In the order in which they are tested; an exception that can come at several places stands at the
// first.
#[derive(Clone, Copy, PartialEq, Eq, Debug)]
pub enum Condition {
    BadNumber,
    BadPrefix,
    Unaligned,
    ShortList,
    AletSpecification,
    Addressing,
    AlenTranslation,
    AleSequence,
    AsteValidity,
    AsteSequence,
    ExtendedAuthority,
    LowAddress,
    AsceType,
    RegionFirst,
    RegionSecond,
    RegionThird,
    Segment,
    TranslationSpecification,
    PageTranslation,
    AccessList,
    Page,
    Key,
    TooMuch,
    BadText,
}

impl Condition {
    // The code that a listing prints after E. No other condition has it.
    #[tactic(auto, using(crate::proofs::ConditionCodes::code_tells))]
    pub fn code(self) -> &'static str
        ensures code { result.now ≡ code_of self }
        ensures alone { (other : _) → code_of other ≡ code_of self → other ≡ self }
    {
        match self {
            Condition::BadNumber => "201",
            Condition::BadPrefix => "202",
            Condition::Unaligned => "203",
            Condition::ShortList => "204",
            Condition::AletSpecification => "28",
            Condition::Addressing => "5",
            Condition::AlenTranslation => "29",
            Condition::AleSequence => "2a",
            Condition::AsteValidity => "2b",
            Condition::AsteSequence => "2c",
            Condition::ExtendedAuthority => "2d",
            Condition::LowAddress => "4L",
            Condition::AsceType => "38",
            Condition::RegionFirst => "39",
            Condition::RegionSecond => "3a",
            Condition::RegionThird => "3b",
            Condition::Segment => "10",
            Condition::TranslationSpecification => "12",
            Condition::PageTranslation => "11",
            Condition::AccessList => "4A",
            Condition::Page => "4P",
            Condition::Key => "4K",
            Condition::TooMuch => "206",
            Condition::BadText => "205",
        }
    }

    // The name that a listing prints after the code.
    pub fn name(self) -> &'static str
        ensures { result.now ≡ name_of self }
    {
        match self {
            Condition::BadNumber => "bad-number",
            Condition::BadPrefix => "bad-prefix",
            Condition::Unaligned => "unaligned",
            Condition::ShortList => "short-list",
            Condition::AletSpecification => "ALET-specification",
            Condition::Addressing => "addressing",
            Condition::AlenTranslation => "ALEN-translation",
            Condition::AleSequence => "ALE-sequence",
            Condition::AsteValidity => "ASTE-validity",
            Condition::AsteSequence => "ASTE-sequence",
            Condition::ExtendedAuthority => "extended-authority",
            Condition::LowAddress => "low-address",
            Condition::AsceType => "ASCE-type",
            Condition::RegionFirst => "region-first",
            Condition::RegionSecond => "region-second",
            Condition::RegionThird => "region-third",
            Condition::Segment => "segment",
            Condition::TranslationSpecification => "translation-specification",
            Condition::PageTranslation => "page-translation",
            Condition::AccessList => "access-list",
            Condition::Page => "page",
            Condition::Key => "key",
            Condition::TooMuch => "too-much",
            Condition::BadText => "bad-text",
        }
    }
}

// As the line of a refusal has it: the code, a tab, the name.
impl Display for Condition {
    ghost output = { λ c. Some (code_and_name c) };

    fn fmt<W: Write>(&self, f: &mut Formatter<W>) -> fmt::Result {
        let code = self.code();
        let name = self.name();
        write!(f, "{code}\t{name}")
    }
}
