// Worked cases of the two lookups, computed from their definitions.
ghost use Rattle.std.specs.Prelude.{◌≡◌};
ghost use Rattle.lookup.specs.Layouts.{WorkedLayouts};
ghost use Rattle.lookup.specs.Worked.{Worked};

// How many cases there are; that each comes out is what is proved.
pub fn worked_cases() -> u8
    ensures count { result ≡ 10 }
    ensures hold { Worked }
{
    10
}

// How many layouts, limits and bounds have cases of each bit on either side of a boundary; that each
// comes out is what is proved.
pub fn worked_layouts() -> u8
    ensures count { result ≡ 16 }
    ensures hold { WorkedLayouts }
{
    16
}
