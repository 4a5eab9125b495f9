//! Fields of lent bytes by plain offset.

ghost use Rattle.std.specs.Prelude.{◌≡◌, ◌+◌, ◌≤◌, length};
ghost use Rattle.std.specs.Int.{bytes_high_first};
ghost use Rattle.std.proofs.lemmas.List.Edits.{sets};
ghost use Rattle.fields.specs.Cursor.{IsFieldAt};

/// The field of N bytes at an offset, unless it is cut short.
#[inline]
pub fn field_at<const N: usize>(bytes: &[u8], at: usize) -> Option<[u8; N]>
    requires { at ≤ length bytes.now }
    ensures { IsFieldAt N bytes.now at result }
{
    let (field, _) = bytes[at..].split_first_chunk::<N>()?;
    Some(*field)
}

/// A number put at an offset in `width` bytes, the highest of them first. What is above them is lost.
#[tactic(auto, using(crate::proofs::Stores::bytes_turn, crate::proofs::Stores::bytes_none))]
pub fn put_at(bytes: &mut [u8], at: usize, width: usize, value: u64)
    requires { at + width ≤ length bytes.old }
    ensures { bytes.new ≡ sets bytes.old at (bytes_high_first width value) }
{
    // Byte by byte, for any width: of `to_be_bytes` the last `width` could be taken only where that is 8 at most.
    let mut rest = value;
    for i in (0..width).rev() {
        bytes[at + i] = (rest % 256) as u8;
        rest /= 256;
    }
}
