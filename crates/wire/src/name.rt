// The names of the feed: any bytes of a fixed number.
ghost use Rattle.std.specs.Prelude.{◌≡◌, Decides, nat_eq};
ghost use Rattle.std.specs.Cmp.Lexicographic.{pointwise};
ghost use Rattle.wire.specs.Names.{name_of};

// The bytes of a symbol.
pub type SymbolBytes = [u8; 6];

// The bytes of a session's name.
pub type SessionBytes = [u8; 10];

// A stock's symbol.
pub type Symbol = Name<6>;

// A session's name.
pub type Session = Name<10>;

#[derive(Clone, Copy, PartialEq, Eq)]
pub struct Name<const N: usize> {
    bytes: [u8; N],
}

impl<const N: usize> Name<N> {
    // The one reader of a name: every symbol and every session comes from here. An `Option` and no `TryFrom`, since each
    // caller has a refusal or a cause of its own to give.
    pub fn read(bytes: &[u8]) -> Option<Name<N>>
        ensures { result ≡ name_of N bytes.now }
    {
        let bytes = <[u8; N]>::try_from(bytes).ok()?;
        Some(Name { bytes })
    }

    pub fn bytes(&self) -> [u8; N]
        ensures { result ≡ self.now.bytes }
    {
        self.bytes
    }
}

// Whether two names are the same: what `==` of names promises is said here.
pub fn same_name<const N: usize>(a: Name<N>, b: Name<N>) -> bool
    ensures bytes { result ≡ pointwise nat_eq a.entry.bytes b.entry.bytes }
    ensures decides { Decides result (a.entry ≡ b.entry) }
{
    a == b
}
