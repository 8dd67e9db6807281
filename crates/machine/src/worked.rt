// Worked cases of a translation and of prefixing, computed from their definitions.
ghost use Rattle.std.specs.Prelude.{◌≡◌};
ghost use Rattle.machine.specs.Worked.{WorkedTranslations};

// How many parts of a translation have cases on either side of each bound; that each comes out is
// what is proved.
pub fn worked_translations() -> u8
    ensures count { result ≡ 8 }
    ensures hold { WorkedTranslations }
{
    8
}
