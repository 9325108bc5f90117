// The cursor that makes the fetch of the next number cheap.
ghost use Rattle.std.specs.Prelude.{◌≡◌};

// Where to begin to look for the numbers from `low` to `high`, which are no `RangeInclusive`, since that is not `Copy`.
#[derive(Clone, Copy)]
pub(crate) struct Cursor<'a> {
    // the file from a block on
    pub(crate) rest: &'a [u8],
    pub(crate) low: u32,
    pub(crate) high: u32,
}

impl<'a> Cursor<'a> {
    // At the front of a file, which is good for every number.
    pub(crate) fn front(bytes: &'a [u8]) -> Cursor<'a>
        ensures rest { result.rest.now ≡ bytes.now }
        ensures low { result.low ≡ 0 }
        ensures high { result.high ≡ 4294967295 }
    {
        Cursor {
            rest: bytes,
            low: 0,
            high: u32::MAX,
        }
    }
}
