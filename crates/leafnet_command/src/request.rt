//! What a command line asks for.
ghost use Rattle.std.specs.Prelude.{◌≡◌, map, string_bytes};
ghost use Rattle.leafnet_command.specs.Asked.{asked_by, asked_by_word, asked_in};

/// What `--help` prints, and what is said of a command line that asks for nothing known.
pub const USAGE: &str = "usage: leafnet [FILE]
       leafnet --help | --version
Prints the mesh and the net of the board record in FILE, or on standard input
where FILE is - or left out. Ends with 0; with 1 where the record is refused, or
where it can't be read or the text can't be written; with 2 where it is called in
another way.
";

/// What `--version` prints: the version of header and crate, too.
pub const VERSION: &str = "leafnet 0.11.0\n";

/// Where a record is read from.
#[derive(Clone, Copy, Debug, PartialEq, Eq)]
pub enum Source<'a> {
    StandardInput,
    File(&'a str),
}

#[derive(Clone, Copy, Debug, PartialEq, Eq)]
pub enum Request<'a> {
    Help,
    Version,
    /// The answer for the record from there.
    Answer(Source<'a>),
}

fn of_word(word: &str) -> Option<Request<'_>>
    ensures { asked_in result ≡ asked_by_word word.now }
{
    match word {
        "--help" => Some(Request::Help),
        "--version" => Some(Request::Version),
        "-" => Some(Request::Answer(Source::StandardInput)),
        name if name.starts_with('-') => None,
        name => Some(Request::Answer(Source::File(name))),
    }
}

/// What these words ask for, those behind the program's name. None where that is nothing that leafnet knows.
pub fn parse(words: &[String]) -> Option<Request<'_>>
    ensures { asked_in result ≡ asked_by (map string_bytes words.now) }
{
    match words {
        [] => Some(Request::Answer(Source::StandardInput)),
        [word] => of_word(word.as_str()),
        _ => None,
    }
}
