//! leafnet, between a reader and a writer, and by the words of a command line.
use leafnet_command::files::FileSystem;
use leafnet_command::request::USAGE;
use leafnet_command::run::run;
use leafnet_text::failure::Failure;
use leafnet_text::input::Board;
use leafnet_text::lines::{Text, put_edge};
use leafnet_text::mesh::Mesh;
use leafnet_text::{answer_to, leafnet};
use net_rows::Edge;
use refusals::Refusal;
use std::io::{self, Error, ErrorKind, Read, Write};
use std::process::Abort;
use std::test::Fail;

// A square of 4 by 4 ticks on layer 1, in one cell.
const SQUARE: &[u8] = &[
    1, 0, 0, 0, 97, 1, 1, 0, 0, 0, 0, 0, 0, 0, 0, 4, 0, 0, 0, 1, 0, 1, 0, 0, 0, 0, 63, 240, 0, 0,
    0, 0, 0, 0, 0, 4, 0, 0, 0, 0, 0, 0, 0, 0, 0, 0, 0, 0, 0, 0, 0, 0, 0, 0, 0, 0, 0, 0, 0, 4, 0, 0,
    0, 0, 0, 0, 0, 0, 0, 0, 0, 0, 0, 0, 0, 4, 0, 0, 0, 0, 0, 0, 0, 4, 0, 0, 0, 0, 0, 0, 0, 0, 0, 0,
    0, 0, 0, 0, 0, 4, 0, 0,
];

// No polygon, at level 3.
const EMPTY: &[u8] = &[
    1, 0, 0, 0, 17, 3, 1, 0, 0, 0, 0, 0, 0, 0, 0, 4, 0, 0, 0, 0, 0, 0,
];

const TEXT: &str = "cells 1 leaves 1 nodes 4 edges 4 splits 0
leaf 0 0 0 0 0 4 4
node 0 1 0 0 0
node 1 1 0 4 0
node 2 1 0 4 4
node 3 1 0 0 4
edge 0 1 3fe0000000000000
edge 3 2 3fe0000000000000
edge 0 3 3fe0000000000000
edge 1 2 3fe0000000000000
";

/// Gives some bytes, and fails then.
#[derive(Drop)]
struct BrokenReader<'a>(&'a [u8]);

impl Read for BrokenReader<'_> {
    fn read(&mut self, buf: &mut [u8]) -> io::Result<usize> {
        match (buf, self.0) {
            ([place, ..], [first, rest @ ..]) => {
                *place = *first;
                self.0 = rest;
                Ok(1)
            }
            _ => Err(Error::from(ErrorKind::Other)),
        }
    }
}

/// Takes so many bytes one by one, and fails then.
#[derive(Drop)]
struct BrokenWriter {
    room: usize,
    taken: usize,
}

impl Write for BrokenWriter {
    fn write(&mut self, buf: &[u8]) -> io::Result<usize> {
        if self.taken < self.room && !buf.is_empty() {
            self.taken += 1;
            return Ok(1);
        }
        Err(Error::from(ErrorKind::Other))
    }

    fn flush(&mut self) -> io::Result<()> {
        Ok(())
    }
}

#[test]
fn a_square(rt: HostRuntime) -> Result<(), Fail> {
    let mut text = Vec::new(rt.alloc());
    let printed = matches!(leafnet(&mut &SQUARE[..], &mut text), Ok(None));
    assert!(rt; printed);
    assert_eq!(rt; text.as_slice(), TEXT.as_bytes());
    Ok(())
}

// Each in place of the text before it.
#[test]
fn refusals(rt: HostRuntime) {
    let mut text = Text::new();
    assert_eq!(rt; answer_to(&[], &mut text), Some(Refusal::WrongLength(0)));
    assert_eq!(rt; text.as_str(), "refused 2 0\n");
    assert_eq!(rt; answer_to(&[2], &mut text), Some(Refusal::WrongVersion));
    assert_eq!(rt; text.as_str(), "refused 1 0\n");
    let cut = &SQUARE[..SQUARE.len() - 1];
    assert_eq!(rt; answer_to(cut, &mut text), Some(Refusal::WrongLength(1)));
    assert_eq!(rt; text.as_str(), "refused 2 1\n");
    assert_eq!(rt; answer_to(&[0; 16_385], &mut text), Some(Refusal::NoRoom));
    assert_eq!(rt; text.as_str(), "refused 6 0\n");
}

// A mesh has the level of its board, where no text shows it too.
#[test]
fn a_mesh_without_cells(rt: HostRuntime) {
    let level = Board::read(EMPTY)
        .and_then(|board| Mesh::of_board(&board))
        .map(|mesh| mesh.head.max_level);
    assert_eq!(rt; level, Ok(3));
}

#[test]
fn an_edge_that_is_no_number(rt: HostRuntime) {
    let edge = Edge {
        from: 0,
        to: 1,
        conductance: f64::NAN,
    };
    let mut text = Text::new();
    put_edge(&mut text, &edge);
    assert_eq!(rt; text.as_str(), "edge 0 1 7ff8000000000000\n");
}

#[test]
fn a_read_fails_in_mid_stream(rt: HostRuntime) -> Result<(), Fail> {
    let mut text = Vec::new(rt.alloc());
    let mut reader = BrokenReader(&SQUARE[..20]);
    let failed = matches!(leafnet(&mut reader, &mut text), Err(Failure::Reading(_)));
    assert!(rt; failed);
    assert!(rt; text.is_empty());
    Ok(())
}

#[test]
fn a_write_fails_in_mid_stream(rt: HostRuntime) {
    let mut writer = BrokenWriter { room: 10, taken: 0 };
    let failed = matches!(
        leafnet(&mut &SQUARE[..], &mut writer),
        Err(Failure::Writing(_))
    );
    assert!(rt; failed);
    assert_eq!(rt; writer.taken, 10);
}

// What stands on both ends after a run, and its status.
#[derive(Clone, Copy)]
struct Wanted<'a> {
    printed: &'a str,
    said: &'a str,
    status: u8,
}

// A folder with one file, which opens as these bytes.
#[derive(Clone, Copy)]
struct Folder<'a> {
    name: &'a str,
    record: &'a [u8],
}

impl<'a> FileSystem for Folder<'a> {
    ghost use Rattle.std.specs.Prelude.{⊤};

    type File = &'a [u8];

    ghost opens = { λ _ _. ⊤ };

    ghost fails = { λ _ _. ⊤ };

    fn open_named(&self, name: &str) -> io::Result<&'a [u8]> {
        if name == self.name {
            return Ok(self.record);
        }
        Err(Error::from(ErrorKind::NotFound))
    }
}

// Runs a command line of one word, or of none, with this record on standard input, beside this folder.
fn assert_run<R: Abort + AllocGlobal, F: FileSystem>(
    rt: &R,
    files: &F,
    word: &str,
    record: &[u8],
    wanted: Wanted<'_>,
) -> Result<(), Fail> {
    let mut words = Vec::new(rt.alloc());
    if !word.is_empty() {
        words.push(String::from_str(rt.alloc(), word)?)?;
    }
    let mut printed = Vec::new(rt.alloc());
    let ending = run(files, &words, &mut &record[..], &mut printed);
    let mut said = Vec::new(rt.alloc());
    ending.say(&mut said)?;
    assert_eq!(rt; printed.as_slice(), wanted.printed.as_bytes());
    assert_eq!(rt; said.as_slice(), wanted.said.as_bytes());
    assert_eq!(rt; ending.status(), wanted.status);
    Ok(())
}

#[test]
fn records_on_standard_input(rt: HostRuntime) -> Result<(), Fail> {
    let printed = Wanted {
        printed: TEXT,
        said: "",
        status: 0,
    };
    let refused = Wanted {
        printed: "refused 1 0\n",
        said: "leafnet: refused 1 0: the record is not of version 1\n",
        status: 1,
    };
    for word in ["", "-"] {
        assert_run(&rt, &rt, word, SQUARE, printed)?;
        assert_run(&rt, &rt, word, b"level 3", refused)?;
    }
    Ok(())
}

#[test]
fn records_in_files(rt: HostRuntime) -> Result<(), Fail> {
    let printed = Wanted {
        printed: TEXT,
        said: "",
        status: 0,
    };
    let missing = Wanted {
        printed: "",
        said: "leafnet: other.record: entity not found\n",
        status: 1,
    };
    let folder = Folder {
        name: "square.record",
        record: SQUARE,
    };
    assert_run(&rt, &folder, "square.record", b"level 3", printed)?;
    assert_run(&rt, &folder, "other.record", SQUARE, missing)
}

#[test]
fn other_command_lines(rt: HostRuntime) -> Result<(), Fail> {
    let help = Wanted {
        printed: USAGE,
        said: "",
        status: 0,
    };
    let version = Wanted {
        printed: "leafnet 0.11.0\n",
        said: "",
        status: 0,
    };
    let missing = Wanted {
        printed: "",
        said: "leafnet: no such file: No such file or directory (os error 2)\n",
        status: 1,
    };
    let misused = Wanted {
        printed: "",
        said: USAGE,
        status: 2,
    };
    assert_run(&rt, &rt, "--help", SQUARE, help)?;
    assert_run(&rt, &rt, "--version", SQUARE, version)?;
    assert_run(&rt, &rt, "no such file", SQUARE, missing)?;
    assert_run(&rt, &rt, "-h", SQUARE, misused)
}

#[test]
fn failures_name_their_end(rt: HostRuntime) -> Result<(), Fail> {
    let mut printed = Vec::new(rt.alloc());
    let ending = run(&rt, &[], &mut BrokenReader(&SQUARE[..20]), &mut printed);
    assert_eq!(rt; ending.status(), 1);
    let mut said = Vec::new(rt.alloc());
    ending.say(&mut said)?;
    assert_eq!(rt;
        said.as_slice(),
        "leafnet: cannot read standard input: other error\n".as_bytes()
    );
    assert!(rt; printed.is_empty());
    let mut writer = BrokenWriter { room: 10, taken: 0 };
    let ending = run(&rt, &[], &mut &SQUARE[..], &mut writer);
    assert_eq!(rt; ending.status(), 1);
    let mut said = Vec::new(rt.alloc());
    ending.say(&mut said)?;
    assert_eq!(rt;
        said.as_slice(),
        "leafnet: cannot write standard output: other error\n".as_bytes()
    );
    Ok(())
}
