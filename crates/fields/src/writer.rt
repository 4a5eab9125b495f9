//! A writer that carries the lent bytes and its offset. No call here refuses: who writes has judged the room before.

ghost use Rattle.std.specs.Prelude.{◌≡◌, ◌+◌, ◌≤◌, length};
ghost use Rattle.std.specs.Int.{bytes_high_first};

use crate::offset::put_at;

/// Lent bytes, and how many of them have been written.
#[derive(Drop)]
pub struct Writer<'a> {
    pub bytes: &'a mut [u8],
    pub at: usize,
    ghost within: { at ≤ length bytes.now },
}

impl<'a> Writer<'a> {
    ghost use Rattle.fields.specs.Written.{Writes, HasRoom};

    /// A writer at the first byte.
    #[inline]
    pub fn new(bytes: &'a mut [u8]) -> Writer<'a>
        ensures bytes { result.bytes.now ≡ bytes.old }
        ensures at_the_start { result.at ≡ 0 }
        ensures same_reference { result.bytes.ghost_name ≡ bytes.entry.ghost_name }
    {
        Writer { bytes, at: 0 }
    }

    /// A number in `width` bytes, the highest of them first. What is above them is lost.
    #[inline]
    pub fn put(&mut self, width: usize, value: u64)
        requires { HasRoom width self.old }
        ensures { Writes width (bytes_high_first width value) self.old self.new }
    {
        put_at(self.bytes, self.at, width, value);
        self.at += width;
    }
}
