//! What the replays share: numbers and rows read from a stream of stored cases, and answers printed as text.
//!
//! A number is a byte, how many bytes follow, and these: at most 8, the highest first. A signed number is in two's
//! complement, a fraction is its bits. A row is its length and its numbers. Past the end every number is 0.
#![tactic(auto)]

use std::alloc::{AllocError, Global};
use std::io;
use std::io::Read;
use table::Head;

pub mod print;
pub mod stored;

use stored::Stored;

#[derive(Drop)]
pub struct Cases {
    bytes: Vec<u8>,
    // Where the next number begins.
    at: usize,
}

impl Cases {
    // All of standard input.
    pub fn read<R: Input + AllocGlobal>(rt: &R) -> io::Result<Cases> {
        let mut bytes = Vec::new(rt.alloc());
        rt.reader().read_to_end(&mut bytes)?;
        Ok(Cases { bytes, at: 0 })
    }

    fn byte(&mut self) -> u8 {
        match self.bytes.get(self.at) {
            Some(b) => {
                let b = *b;
                self.at += 1;
                b
            }
            None => 0,
        }
    }

    pub fn word(&mut self) -> u64 {
        let mut n = 0u64;
        for _ in 0..self.byte().min(8) {
            n = n.wrapping_mul(256).wrapping_add(u64::from(self.byte()));
        }
        n
    }

    // A number that is an index or a count.
    pub fn index(&mut self) -> usize {
        self.word() as usize
    }

    // A table's count, its number of leaves and its deepest level.
    pub fn head(&mut self) -> Head {
        let count = self.index();
        let leaves = self.index();
        let max_level = self.word();
        Head {
            count,
            leaves,
            max_level,
        }
    }

    pub fn row<T: Stored + Drop>(&mut self, alloc: Global) -> Result<Vec<T>, AllocError> {
        let mut row = Vec::new(alloc);
        for _ in 0..self.word() {
            row.push(T::stored(self))?;
        }
        Ok(row)
    }
}
