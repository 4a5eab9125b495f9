//! A reader that carries the lent bytes and its offset. Each call takes it apart and calls the offset reader.

ghost use Rattle.std.specs.Prelude.{◌≡◌, ◌≤◌, length, IfNone, OnErr, Ok};
ghost use Rattle.std.specs.Int.{w8, w16, w32, w64};
ghost use Rattle.refusals.specs.declared.Refusal.TheVariants.{OutOfRange};
ghost use Rattle.fields.specs.Cursor.{start, past, Finds, Reads, require, bytes_of, number, signed_number};
ghost use Rattle.fields.specs.Codec.{ranged};

use crate::offset::field_at;
use refusals::Refusal;
use std::marker::Model;

/// Lent bytes, and how many of them have been read. A clause sees where the reader stands and what is left.
#[derive(Drop)]
pub struct Reader<'a> {
    bytes: &'a [u8],
    at: usize,
}

impl<'a> Model for Reader<'a> {
    ghost use Rattle.std.specs.Prelude.{◌≤◌, length, drop};
    ghost use Rattle.fields.specs.Cursor.{Cursor};

    ghost Value = { Cursor };

    ghost view = { λ r. record { at = r.at; rest = drop r.at r.bytes.now } };

    ghost invariant = { λ r. r.at ≤ length r.bytes.now };
}

impl<'a> Reader<'a> {
    /// A reader at the first byte.
    #[inline]
    pub fn new(bytes: &'a [u8]) -> Reader<'a>
        ensures { result ≡ start bytes.entry.now }
    {
        Reader { bytes, at: 0 }
    }

    /// How many bytes have been read.
    #[inline]
    pub fn offset(&self) -> usize
        ensures { result ≡ self.now.at }
    {
        self.at
    }

    /// How many bytes are left.
    #[inline]
    pub fn left(&self) -> usize
        ensures { result ≡ length self.now.rest }
    {
        self.bytes.len() - self.at
    }

    /// A second reader where this one stands, to read ahead by: what is judged first is written back only then.
    #[inline]
    pub fn ahead(&self) -> Reader<'a>
        ensures { result ≡ self.now }
    {
        Reader {
            bytes: self.bytes,
            at: self.at,
        }
    }

    // The next N bytes. The reader moves past them, or stays where one of them is missing.
    #[inline]
    fn field<const N: usize>(&mut self) -> Option<[u8; N]>
        ensures read { Finds result self.old self.new (bytes_of N self.old) }
        ensures missing_stays { IfNone result (self.new ≡ self.old) }
    {
        let field = field_at::<N>(self.bytes, self.at)?;
        self.at += N;
        Some(field)
    }

    // A number is there whole or it isn't: whoever reads it says by `let .. else` which refusal that is, and its place.

    #[inline]
    pub fn read_u8(&mut self) -> Option<u8>
        ensures read { Finds result self.old self.new (number w8 self.old) }
        ensures missing_stays { IfNone result (self.new ≡ self.old) }
    {
        let [byte] = self.field::<1>()?;
        Some(byte)
    }

    #[inline]
    pub fn read_u16(&mut self) -> Option<u16>
        ensures read { Finds result self.old self.new (number w16 self.old) }
        ensures missing_stays { IfNone result (self.new ≡ self.old) }
    {
        Some(u16::from_be_bytes(self.field::<2>()?))
    }

    #[inline]
    pub fn read_u32(&mut self) -> Option<u32>
        ensures read { Finds result self.old self.new (number w32 self.old) }
        ensures missing_stays { IfNone result (self.new ≡ self.old) }
    {
        Some(u32::from_be_bytes(self.field::<4>()?))
    }

    #[inline]
    pub fn read_u64(&mut self) -> Option<u64>
        ensures read { Finds result self.old self.new (number w64 self.old) }
        ensures missing_stays { IfNone result (self.new ≡ self.old) }
    {
        Some(u64::from_be_bytes(self.field::<8>()?))
    }

    /// In two's complement.
    #[inline]
    pub fn read_i64(&mut self) -> Option<i64>
        ensures read { Finds result self.old self.new (signed_number self.old) }
        ensures missing_stays { IfNone result (self.new ≡ self.old) }
    {
        Some(self.read_u64()?.cast_signed())
    }

    /// Goes on past n bytes. Internal: they are there.
    #[inline]
    pub fn skip(&mut self, n: usize)
        requires { n ≤ length self.old.rest }
        ensures { self.new ≡ past n self.old }
    {
        self.at += n;
    }

    // The next N bytes, which are there: nothing is asked.
    #[inline]
    fn known<const N: usize>(&mut self) -> [u8; N]
        requires { N ≤ length self.old.rest }
        ensures { bytes_of N self.old ≡ Ok (result, self.new) }
    {
        self.field::<N>().unwrap()
    }

    // One call for each width, as std's `from_be_bytes` is: a trait over the widths would be longer than what it saves.

    /// A number that is there, as one is that was read before. So are the next three.
    #[inline]
    pub fn known_u16(&mut self) -> u16
        requires { 2 ≤ length self.old.rest }
        ensures { number w16 self.old ≡ Ok (result, self.new) }
    {
        u16::from_be_bytes(self.known::<2>())
    }

    #[inline]
    pub fn known_u32(&mut self) -> u32
        requires { 4 ≤ length self.old.rest }
        ensures { number w32 self.old ≡ Ok (result, self.new) }
    {
        u32::from_be_bytes(self.known::<4>())
    }

    #[inline]
    pub fn known_u64(&mut self) -> u64
        requires { 8 ≤ length self.old.rest }
        ensures { number w64 self.old ≡ Ok (result, self.new) }
    {
        u64::from_be_bytes(self.known::<8>())
    }

    #[inline]
    pub fn known_i64(&mut self) -> i64
        requires { 8 ≤ length self.old.rest }
        ensures { signed_number self.old ≡ Ok (result, self.new) }
    {
        self.known_u64().cast_signed()
    }

    /// Moves behind a value that was read ahead, if it fits; else it is refused where the reader stands.
    #[inline]
    pub fn accept<T: Copy>(&mut self, ahead: Reader<'a>, value: T, fits: bool) -> Result<T, Refusal>
        ensures read { Reads result self.new (require fits (OutOfRange self.old.at) (Ok (value, ahead.entry))) }
        ensures refused_stays { OnErr result (self.new ≡ self.old) }
    {
        if !fits {
            return Err(Refusal::OutOfRange(self.at));
        }
        *self = ahead;
        Ok(value)
    }

    // One call for each width here too, with the same reason.

    /// A number from `low` to `high`.
    #[inline]
    pub fn read_u16_within(&mut self, low: u16, high: u16) -> Result<u16, Refusal>
        ensures read { Reads result self.new ((ranged w16 low high).reading self.old) }
        ensures refused_stays { OnErr result (self.new ≡ self.old) }
    {
        let mut ahead = self.ahead();
        let Some(value) = ahead.read_u16() else {
            return Err(Refusal::WrongLength(self.at));
        };
        self.accept(ahead, value, low <= value && value <= high)
    }

    /// A number from `low` to `high`.
    #[inline]
    pub fn read_u64_within(&mut self, low: u64, high: u64) -> Result<u64, Refusal>
        ensures read { Reads result self.new ((ranged w64 low high).reading self.old) }
        ensures refused_stays { OnErr result (self.new ≡ self.old) }
    {
        let mut ahead = self.ahead();
        let Some(value) = ahead.read_u64() else {
            return Err(Refusal::WrongLength(self.at));
        };
        self.accept(ahead, value, low <= value && value <= high)
    }
}
