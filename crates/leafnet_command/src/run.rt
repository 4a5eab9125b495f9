//! A run of leafnet, over any files, any reader and any writer.
ghost use Rattle.std.specs.Prelude.{◌≡◌, ◌⊎◌, Some, map, string_bytes};
ghost use Rattle.std.specs.Io.KnownBytes.{Keeps};
ghost use Rattle.leafnet_command.specs.declared.request.Request.TheVariants.{Answer};
ghost use Rattle.leafnet_command.specs.declared.ending.Ending.TheVariants.{Misused};
ghost use Rattle.leafnet_command.specs.Asked.{answer, asked_by, asked_in};
ghost use Rattle.leafnet_command.specs.Ended.{IsUnopened, Leaves, OfFile, OfInput, OfOwn, OfUnknown, PrintsAnswer, PrintsFile, PrintsOwn};

use crate::ending::Ending;
use crate::files::FileSystem;
use crate::request::{Request, Source, USAGE, VERSION, parse};
use leafnet_text::failure::Failure;
use leafnet_text::leafnet;
use leafnet_text::output::{WriteEnd, write_text};
use leafnet_text::source::ReadEnd;

// Prints a text of the program's own.
fn print<'a, W: WriteEnd>(output: &mut W, text: &str) -> Ending<'a>
    ensures { PrintsOwn W.fails (W.contents output.old) (W.contents output.new) text.now result }
{
    match write_text(output, text.as_bytes()) {
        Ok(()) => Ending::Printed,
        Err(why) => Ending::Unwritten(why),
    }
}

// Prints the answer for the record that the reader has.
fn print_answer<'a, R: ReadEnd, W: WriteEnd>(
    source: Source<'a>,
    reader: &mut R,
    output: &mut W,
) -> Ending<'a>
    ensures { PrintsAnswer (asked_in (Some (Answer source.entry))) R.fails W.fails
        (R.remaining reader.old) (R.remaining reader.new) (W.contents output.old) (W.contents output.new) result }
{
    match leafnet(reader, output) {
        Ok(None) => Ending::Printed,
        Ok(Some(why)) => Ending::Refused(why),
        Err(Failure::Reading(why)) => Ending::Unread(source, why),
        Err(Failure::Writing(why)) => Ending::Unwritten(why),
    }
}

// Prints the answer for the record in the file of this name.
fn print_file<'a, F: FileSystem, W: WriteEnd>(
    files: &F,
    name: &'a str,
    output: &mut W,
) -> Ending<'a>
    ensures { IsUnopened F.fails (W.contents output.old) (W.contents output.new) name.now result
        ⊎ PrintsFile F.opens F.File.remaining F.File.fails W.fails
        (W.contents output.old) (W.contents output.new) name.now result }
{
    match files.open_named(name) {
        Ok(mut file) => print_answer(Source::File(name), &mut file, output),
        Err(why) => Ending::Unread(Source::File(name), why),
    }
}

// Does what is asked for.
fn serve<'a, F: FileSystem, R: ReadEnd, W: WriteEnd>(
    files: &F,
    request: Option<Request<'a>>,
    input: &mut R,
    output: &mut W,
) -> Ending<'a>
    ensures own { OfOwn (asked_in request.entry) (λ text.
        PrintsOwn W.fails (W.contents output.old) (W.contents output.new) text result) }
    ensures input { OfInput (asked_in request.entry)
        (PrintsAnswer answer R.fails W.fails (R.remaining input.old) (R.remaining input.new)
        (W.contents output.old) (W.contents output.new) result) }
    ensures file { OfFile (asked_in request.entry) (λ name.
        IsUnopened F.fails (W.contents output.old) (W.contents output.new) name result
        ⊎ PrintsFile F.opens F.File.remaining F.File.fails W.fails
        (W.contents output.old) (W.contents output.new) name result) }
    ensures unknown { OfUnknown (asked_in request.entry)
        ((result ≡ Misused) × Keeps (W.contents output.old) (W.contents output.new)) }
    ensures left { Leaves (asked_in request.entry) (R.remaining input.old) (R.remaining input.new) }
{
    match request {
        Some(Request::Help) => print(output, USAGE),
        Some(Request::Version) => print(output, VERSION),
        Some(Request::Answer(Source::StandardInput)) => {
            print_answer(Source::StandardInput, input, output)
        }
        Some(Request::Answer(Source::File(name))) => print_file(files, name, output),
        None => Ending::Misused,
    }
}

/// Does what the words of a command line ask for, those behind the program's name. Where an end fails, the ending names
/// it, and the output has got a front of what is due.
pub fn run<'a, F: FileSystem, R: ReadEnd, W: WriteEnd>(
    files: &F,
    words: &'a [String],
    input: &mut R,
    output: &mut W,
) -> Ending<'a>
    ensures own { OfOwn (asked_by (map string_bytes words.now)) (λ text.
        PrintsOwn W.fails (W.contents output.old) (W.contents output.new) text result) }
    ensures input { OfInput (asked_by (map string_bytes words.now))
        (PrintsAnswer answer R.fails W.fails (R.remaining input.old) (R.remaining input.new)
        (W.contents output.old) (W.contents output.new) result) }
    ensures file { OfFile (asked_by (map string_bytes words.now)) (λ name.
        IsUnopened F.fails (W.contents output.old) (W.contents output.new) name result
        ⊎ PrintsFile F.opens F.File.remaining F.File.fails W.fails
        (W.contents output.old) (W.contents output.new) name result) }
    ensures unknown { OfUnknown (asked_by (map string_bytes words.now))
        ((result ≡ Misused) × Keeps (W.contents output.old) (W.contents output.new)) }
    ensures left { Leaves (asked_by (map string_bytes words.now)) (R.remaining input.old) (R.remaining input.new) }
{
    serve(files, parse(words), input, output)
}
