// The messages of a packet, and one of them with its number.
ghost use Rattle.std.specs.Prelude.{◌≡◌, ◌+◌, ◌≤◌, length, true, is_some};
ghost use Rattle.wire.specs.Numbers.{most32};
ghost use Rattle.wire.specs.Frames.{unpacked};

mod walk;

// The messages of a packet that are still to be walked, where they lie: they fill the bytes.
#[derive(Clone, Copy)]
pub struct Messages<'a> {
    bytes: &'a [u8],
    // the number of the first of them, and how many there are
    number: u32,
    left: u16,
    ghost filled: { is_some (unpacked left bytes.now) ≡ true },
    ghost from_one: { 1 ≤ number },
    ghost within: { number + left ≤ most32 + 1 },
}

// A message and its number.
#[derive(Clone, Copy)]
pub struct Numbered<'a> {
    pub number: u32,
    pub bytes: &'a [u8],
    ghost within: { number ≤ most32 },
    ghost least: { 5 ≤ length bytes.now },
    ghost most: { length bytes.now ≤ 80 },
}
