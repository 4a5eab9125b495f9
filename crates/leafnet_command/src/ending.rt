//! How a run ends.
ghost use Rattle.std.specs.Prelude.{◌≡◌, OnOk};
ghost use Rattle.leafnet_command.specs.declared.ending.Ending.TheVariants.{Unread};
ghost use Rattle.leafnet_command.specs.Ended.{Says, reason};

use crate::request::{Source, USAGE};
use arrayvec::ArrayString;
use leafnet_text::lines::Refused;
use refusals::Refusal;
use std::fmt::Write as _;
use std::io;
use std::io::Write;

/// How a run of leafnet ended.
#[derive(Debug, Drop)]
pub enum Ending<'a> {
    /// What was asked for stands on standard output.
    Printed,
    /// The record's refusal stands there.
    Refused(Refusal),
    /// The command line asks for nothing that leafnet knows.
    Misused,
    Unread(Source<'a>, io::Error),
    Unwritten(io::Error),
}

// The system's words for a failure, up to 320 bytes of them.
fn system_words(why: &io::Error) -> ArrayString<320> {
    let mut words = ArrayString::new();
    // Where there are more, those that came before are left.
    let _ = write!(words, "{why}");
    words
}

// Why a record is refused, in the words of the Rust crate.
fn words(why: Refusal) -> &'static str
    ensures { result.now ≡ reason why }
{
    match why {
        Refusal::WrongVersion => "the record is not of version 1",
        Refusal::WrongLength(_) => "the record is cut short, too long, or gives a wrong length",
        Refusal::OutOfRange(_) => "a value is out of range",
        Refusal::Slanted(_) => "two neighbouring points of a ring differ in both x and y",
        Refusal::UnevenCell(_) => "a base cell's side is no multiple of 2^(max_level+1) ticks",
        Refusal::NoRoom => "a lent row is too short",
        Refusal::BadTable => {
            "the table or net is not well formed, or rows of polygons do not fit together"
        }
        Refusal::NoSuchCell(_) => "there is no cell with this id",
        Refusal::AlreadySplit(_) => "the cell is split already",
        Refusal::FinestLevel(_) => "the cell is at the finest level",
    }
}

// Says what can't be read, and why.
fn say_unread<W: Write>(source: Source<'_>, why: &io::Error, error: &mut W) -> io::Result<()>
    ensures { OnOk result (Says (Unread source.entry why.now) (W.contents error.old) (W.contents error.new)) }
{
    let words = system_words(why);
    match source {
        Source::StandardInput => writeln!(error, "leafnet: cannot read standard input: {words}"),
        Source::File(name) => writeln!(error, "leafnet: {name}: {words}"),
    }
}

impl Ending<'_> {
    ghost use Rattle.leafnet_command.specs.Ended.{status_of};

    /// The status that the program ends with.
    pub fn status(&self) -> u8
        ensures { result ≡ status_of self.now }
    {
        match self {
            Ending::Printed => 0,
            Ending::Misused => 2,
            Ending::Refused(_) => 1,
            Ending::Unread(..) | Ending::Unwritten(_) => 1,
        }
    }

    /// Says on standard error how the run ended.
    pub fn say<W: Write>(&self, error: &mut W) -> io::Result<()>
        ensures { OnOk result (Says self.now (W.contents error.old) (W.contents error.new)) }
    {
        match self {
            Ending::Printed => Ok(()),
            Ending::Refused(why) => {
                let refused = Refused(*why);
                let words = words(*why);
                writeln!(error, "leafnet: {refused}: {words}")
            }
            Ending::Misused => write!(error, "{USAGE}"),
            Ending::Unread(source, why) => say_unread(*source, why, error),
            Ending::Unwritten(why) => {
                let words = system_words(why);
                writeln!(error, "leafnet: cannot write standard output: {words}")
            }
        }
    }
}
