//! Why a call is refused, and the ranges that its values must keep: once, for every crate.
#![tactic(auto)]

ghost use Rattle.std.specs.Prelude.{◌≡◌, ◌<◌};
ghost use Rattle.refusals.specs.Said.{refused, refusal};

use std::fmt;

pub mod laws;
pub mod limits;

/// The ten refusals. A case holds its place where the rules give it one other than 0.
#[derive(Clone, Copy, Debug, PartialEq, Eq)]
pub enum Refusal {
    WrongVersion,
    WrongLength(usize),
    OutOfRange(usize),
    Slanted(usize),
    UnevenCell(usize),
    NoRoom,
    BadTable,
    NoSuchCell(usize),
    AlreadySplit(usize),
    FinestLevel(usize),
}

/// A refusal as the rules number it.
#[derive(Clone, Copy, Debug, PartialEq, Eq)]
pub struct Code {
    pub number: u64,
    pub place: usize,
}

impl Refusal {
    pub fn code(self) -> Code
        ensures number_and_place { refused result.number result.place ≡ refusal self }
        ensures above_zero { 0 < result.number }
    {
        let (number, place) = match self {
            Refusal::WrongVersion => (1, 0),
            Refusal::WrongLength(at) => (2, at),
            Refusal::OutOfRange(at) => (3, at),
            Refusal::Slanted(polygon) => (4, polygon),
            Refusal::UnevenCell(polygon) => (5, polygon),
            Refusal::NoRoom => (6, 0),
            Refusal::BadTable => (7, 0),
            Refusal::NoSuchCell(id) => (8, id),
            Refusal::AlreadySplit(id) => (9, id),
            Refusal::FinestLevel(id) => (10, id),
        };
        Code { number, place }
    }
}

impl fmt::Display for Refusal {
    fn fmt<W: fmt::Write>(&self, f: &mut fmt::Formatter<W>) -> fmt::Result {
        match *self {
            Refusal::WrongVersion => write!(f, "the version is not 1"),
            Refusal::WrongLength(at) => write!(f, "the length is wrong at byte {at}"),
            Refusal::OutOfRange(at) => write!(f, "a value is out of range at {at}"),
            Refusal::Slanted(polygon) => write!(f, "polygon {polygon} has a slanted edge"),
            Refusal::UnevenCell(polygon) => write!(
                f,
                "a base cell of polygon {polygon} can't be halved often enough"
            ),
            Refusal::NoRoom => write!(f, "too little room"),
            Refusal::BadTable => write!(f, "not a well-formed table or net"),
            Refusal::NoSuchCell(id) => write!(f, "there is no cell {id}"),
            Refusal::AlreadySplit(id) => write!(f, "cell {id} is split already"),
            Refusal::FinestLevel(id) => write!(f, "cell {id} is at the finest level"),
        }
    }
}
