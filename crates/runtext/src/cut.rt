// Cuts of a text at a byte.
ghost use Rattle.std.specs.Prelude.{◌≡◌, ◌==◌};
ghost use Rattle.std.specs.List.{position};
ghost use Rattle.std.specs.Option.{option_map};
ghost use Rattle.runtext.specs.Reading.{Lacks, Cut};

// The first place of a byte.
fn first(bytes: &[u8], b: u8) -> Option<usize>
    ensures { result ≡ position (λ x. x == b) bytes.now }
{
    bytes.iter().position(|x| *x == b)
}

// What stands before the first byte `at`, and what stands after it, if it is there.
pub(crate) fn cut(bytes: &[u8], at: u8) -> (&[u8], Option<&[u8]>)
    ensures lacks { Lacks at result.0.now }
    ensures parts { Cut at bytes.now result.0.now (option_map (λ x. x.now) result.1) }
{
    match first(bytes, at) {
        Some(i) => (&bytes[..i], Some(&bytes[i + 1..])),
        None => (bytes, None),
    }
}
