//! Where a text goes, with a word on what is there where a write fails.
ghost use Rattle.std.specs.Prelude.{◌≡◌, ◌≤◌, ℕ, List, ⊤, Option, IfErr, IfOk, OnErr, OnOk, length, take};
ghost use Rattle.std.specs.Io.KnownBytes.{Appends, Keeps, WriteAppends};
ghost use Rattle.std.specs.declared.io.Error.{Error};
ghost use Rattle.leafnet_text.specs.Fronts.{AppendsFront};

use std::io;
use std::io::{Error, ErrorKind, Write};

/// The end that bytes go to: any writer of std's. What it fails with is known of it, as of a `ReadEnd`.
pub trait WriteEnd {
    // The bytes that it holds, where they are known.
    ghost contents: { Self → Option (List ℕ) };

    // It fails with this error.
    ghost fails: { Error → Type 0 };

    // How many bytes were taken from the front. An end that takes none has failed.
    fn write_some(&mut self, bytes: &[u8]) -> io::Result<usize>
        requires { 1 ≤ length bytes.now }
        ensures some { IfOk result (λ n. 1 ≤ n) }
        ensures within { IfOk result (λ n. n ≤ length bytes.now) }
        ensures bytes { WriteAppends (contents self.old) (contents self.new) result bytes.now }
        ensures failed { IfErr result (λ why. fails why) };
}

impl<W: Write> WriteEnd for W {
    ghost contents = { W.contents };

    // Of no writer std says when it fails.
    ghost fails = { λ _. ⊤ };

    fn write_some(&mut self, bytes: &[u8]) -> io::Result<usize> {
        match self.write(bytes) {
            Ok(0) => Err(Error::new(ErrorKind::WriteZero, "failed to write whole buffer")),
            answer => answer,
        }
    }
}

// One write of what there is, begun again where it is interrupted.
fn write_retrying<W: WriteEnd>(writer: &mut W, bytes: &[u8]) -> io::Result<usize>
    requires { 1 ≤ length bytes.now }
    ensures some { IfOk result (λ n. 1 ≤ n) }
    ensures within { IfOk result (λ n. n ≤ length bytes.now) }
    ensures bytes { IfOk result (λ n. Appends (W.contents writer.old) (W.contents writer.new) (take n bytes.now)) }
    ensures kept { OnErr result (Keeps (W.contents writer.old) (W.contents writer.new)) }
    ensures failed { IfErr result (λ why. W.fails why) }
{
    for _turn in 0..u64::MAX {
        match writer.write_some(bytes) {
            Err(why) if why.kind() == ErrorKind::Interrupted => {}
            answer => return answer,
        }
    }
    writer.write_some(bytes)
}

/// Writes a text whole, or a front of it where the writer fails, of which std's `write_all` promises nothing.
pub fn write_text<W: WriteEnd>(writer: &mut W, text: &[u8]) -> io::Result<()>
    ensures whole { OnOk result (Appends (W.contents writer.old) (W.contents writer.new) text.now) }
    ensures front { AppendsFront (W.contents writer.old) (W.contents writer.new) text.now }
    ensures failed { IfErr result (λ why. W.fails why) }
{
    let mut done = 0;
    while done < text.len() {
        done += write_retrying(writer, &text[done..])?;
    }
    Ok(())
}
