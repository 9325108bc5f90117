// The bytes of a field, unsigned big-endian integers, and the length in front of a message.
ghost use Rattle.std.specs.Prelude.{◌≡◌, ℕ, ◌+◌, ◌≤◌, length};
ghost use Rattle.wire.specs.Fields.{part, field_of};
ghost use Rattle.wire.specs.Frames.{front_length};
ghost use Rattle.wire.specs.Numbers.{be16 as bigEndian16, be32 as bigEndian32, be64 as bigEndian64};

// The largest 4-byte integer of the feed.
pub const MOST: u32 = 2_147_483_647;

// The bytes of a field that begins at an offset, where there are enough.
pub fn field<const N: usize>(bytes: &[u8], at: usize) -> Option<[u8; N]>
    ensures { result ≡ field_of N at bytes.now }
{
    bytes.get(at..)?.first_chunk().copied()
}

fn field_within<const N: usize>(bytes: &[u8], at: usize) -> [u8; N]
    requires { at + N ≤ length bytes.now }
    ensures { result ≡ part at N bytes.now }
{
    field(bytes, at).unwrap()
}

// Each integer has its own `from_be_bytes`: std has no trait over them.
pub(crate) fn be16(bytes: &[u8], at: usize) -> u16
    requires { at + 2 ≤ length bytes.now }
    ensures { result ≡ bigEndian16 bytes.now at }
{
    u16::from_be_bytes(field_within(bytes, at))
}

pub(crate) fn be32(bytes: &[u8], at: usize) -> u32
    requires { at + 4 ≤ length bytes.now }
    ensures { result ≡ bigEndian32 bytes.now at }
{
    u32::from_be_bytes(field_within(bytes, at))
}

pub(crate) fn be64(bytes: &[u8], at: usize) -> u64
    requires { at + 8 ≤ length bytes.now }
    ensures { result ≡ bigEndian64 bytes.now at }
{
    u64::from_be_bytes(field_within(bytes, at))
}

// The length in front of the bytes, where it lies within its limits and that many bytes follow it.
pub fn front_length(bytes: &[u8], least: usize, most: usize) -> Option<usize>
    ensures { result ≡ front_length least most bytes.now }
{
    if bytes.len() < 2 {
        return None;
    }
    let length = usize::from(be16(bytes, 0));
    if length < least || length > most || length > bytes.len() - 2 {
        return None;
    }
    Some(length)
}
