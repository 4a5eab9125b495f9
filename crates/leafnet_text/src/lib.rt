//! leafnet from a record's bytes to its text, over any reader and any writer. Nothing here takes memory from the heap.
#![tactic(auto)]

ghost use Rattle.std.specs.Prelude.{◌≡◌, ◌+◌, [], IfErr, IfOk, IfSome, OnErr, OnOk, Some, drop, length};
ghost use Rattle.std.specs.Io.KnownBytes.{Appends, Keeps};
ghost use Rattle.refusals.specs.Said.{accepted};
ghost use Rattle.leafnet_text.specs.Output.{Prints, Tells, leafnet_says, output_text};
ghost use Rattle.leafnet_text.specs.Rooms.{input_room};
ghost use Rattle.leafnet_text.specs.Fronts.{AppendsFront, ConsumesFront};
ghost use Rattle.leafnet_text.specs.Ends.{Answers, Fails};

pub mod failure;
pub mod input;
pub mod laws;
pub mod lines;
pub mod listing;
pub mod mesh;
pub mod netlist;
pub mod output;
pub mod rooms;
pub mod source;

use failure::Failure;
use input::Board;
use lines::{Refused, Text};
use mesh::Mesh;
use output::WriteEnd;
use refusals::Refusal;
use rooms::INPUT;
use source::ReadEnd;

// The text of a record that nothing refuses, or its refusal and no text.
fn put_accepted(record: &[u8], text: &mut Text) -> Result<(), Refusal>
    requires { text.old.bytes ≡ [] }
    ensures says { Prints result (λ _. accepted text.new.bytes) (leafnet_says «record».now) }
    ensures none { OnErr result (text.new.bytes ≡ []) }
{
    if INPUT < record.len() {
        return Err(Refusal::NoRoom);
    }
    let board = Board::read(record)?;
    let mesh = Mesh::of_board(&board)?;
    mesh.put(&board, text)
}

/// What leafnet answers for a record: all that it prints, in place of what the text was, and why the record is refused,
/// if it is.
pub fn answer_to(record: &[u8], text: &mut Text) -> Option<Refusal>
    ensures text { text.new.bytes ≡ output_text «record».now }
    ensures refusal { Tells result (leafnet_says «record».now) }
{
    text.clear();
    match put_accepted(record, text) {
        Ok(()) => None,
        Err(why) => {
            Refused(why).put(text);
            Some(why)
        }
    }
}

/// Reads a record, writes its text, and answers why it is refused, if it is. Of input that is too long no more is read
/// than the one byte that shows it, and nothing is written before the input is read. Where the reader fails nothing is
/// written, and what was read by then is gone; where the writer fails a front of the text is written.
pub fn leafnet<R: ReadEnd, W: WriteEnd>(
    reader: &mut R,
    writer: &mut W,
) -> Result<Option<Refusal>, Failure>
    ensures answered { IfOk result (Answers (R.remaining reader.old) (R.remaining reader.new)
        (W.contents writer.old) (W.contents writer.new)) }
    ensures failed { IfErr result (Fails (R.remaining reader.old) (R.remaining reader.new)
        (W.contents writer.old) (W.contents writer.new) R.fails W.fails) }
    ensures refusal { IfOk result (λ why. IfSome (R.remaining reader.old) (λ input. Tells why (leafnet_says input))) }
    ensures text { OnOk result (IfSome (R.remaining reader.old) (λ input.
        Appends (W.contents writer.old) (W.contents writer.new) (output_text input))) }
    ensures front { IfSome (R.remaining reader.old) (λ input.
        AppendsFront (W.contents writer.old) (W.contents writer.new) (output_text input)) }
    ensures left { OnOk result (IfSome (R.remaining reader.old) (λ input.
        R.remaining reader.new ≡ Some (drop (input_room + 1) input))) }
    ensures gone { ConsumesFront (R.remaining reader.old) (R.remaining reader.new) }
{
    let mut room = [0; INPUT + 1];
    let mut text = Text::new();
    let count = match source::read_front(reader, &mut room) {
        Ok(count) => count,
        Err(why) => return Err(Failure::Reading(why)),
    };
    let refusal = answer_to(&room[..count], &mut text);
    match output::write_text(writer, text.as_str().as_bytes()) {
        Ok(()) => Ok(refusal),
        Err(why) => Err(Failure::Writing(why)),
    }
}
