//! Where a record is read from, and the front of it, with a word on what is left where a read fails.
ghost use Rattle.std.specs.Prelude.{◌≡◌, ◌≤◌, ℕ, List, ⊤, Option, Some, IfErr, IfOk, IfSome, OnErr, OnOk, drop, length, take};
ghost use Rattle.std.specs.Io.KnownBytes.{Consumes, IsAtEnd, Keeps, ReadConsumes};
ghost use Rattle.std.specs.declared.io.Error.{Error};
ghost use Rattle.leafnet_text.specs.Fronts.{ConsumesFront};

use std::io;
use std::io::{Error, ErrorKind, Read};

/// The end that bytes come from: any reader of std's. What it fails with is known of it, so that a contract over it can
/// say whose failure is told.
pub trait ReadEnd {
    // The bytes that are left, where they are known.
    ghost remaining: { Self → Option (List ℕ) };

    // It fails with this error.
    ghost fails: { Error → Type 0 };

    fn read_some(&mut self, room: &mut [u8]) -> io::Result<usize>
        ensures within { IfOk result (λ n. n ≤ length room.new) }
        ensures bytes { ReadConsumes (remaining self.old) (remaining self.new) result room.new }
        ensures failed { IfErr result (λ why. fails why) };
}

impl<R: Read> ReadEnd for R {
    ghost remaining = { R.remaining };

    // Of no reader std says when it fails.
    ghost fails = { λ _. ⊤ };

    fn read_some(&mut self, room: &mut [u8]) -> io::Result<usize> {
        self.read(room)
    }
}

// One read into a row that has room, begun again where it is interrupted.
fn read_retrying<R: ReadEnd>(reader: &mut R, room: &mut [u8]) -> io::Result<usize>
    requires { 1 ≤ length room.old }
    ensures within { IfOk result (λ n. n ≤ length room.new) }
    ensures bytes { IfOk result (λ n. Consumes (R.remaining reader.old) (R.remaining reader.new) (take n room.new)) }
    ensures end { IfOk result (λ n. n ≡ 0 → IsAtEnd (R.remaining reader.new)) }
    ensures kept { OnErr result (Keeps (R.remaining reader.old) (R.remaining reader.new)) }
    ensures failed { IfErr result (λ why. R.fails why) }
{
    for _turn in 0..u64::MAX {
        match reader.read_some(room) {
            Err(why) if why.kind() == ErrorKind::Interrupted => {}
            answer => return answer,
        }
    }
    reader.read_some(room)
}

/// As much of the input as the row has room for, into its front; how many bytes that is. Where a read fails, those that
/// came before it are gone; std's `read_to_end` promises nothing then.
pub fn read_front<R: ReadEnd>(reader: &mut R, room: &mut [u8]) -> io::Result<usize>
    ensures within { IfOk result (λ n. n ≤ length room.new) }
    ensures bytes { IfOk result (λ n. Consumes (R.remaining reader.old) (R.remaining reader.new) (take n room.new)) }
    ensures all { IfOk result (λ n. IfSome (R.remaining reader.old) (λ input.
        take n room.new ≡ take (length room.new) input)) }
    ensures left { OnOk result (IfSome (R.remaining reader.old) (λ input.
        R.remaining reader.new ≡ Some (drop (length room.new) input))) }
    ensures gone { ConsumesFront (R.remaining reader.old) (R.remaining reader.new) }
    ensures failed { IfErr result (λ why. R.fails why) }
{
    let mut filled = 0;
    while filled < room.len() {
        let count = read_retrying(reader, &mut room[filled..])?;
        if count == 0 {
            break;
        }
        filled += count;
    }
    Ok(filled)
}
