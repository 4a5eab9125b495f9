//! replay_boards: what `leafnet` writes, for each of a sequence of records from standard input, each with its length in
//! front as four bytes.
//!
//! `oracle/replay_boards.sh` made the records in `stdin`, those at the limits first, and had the original, not this
//! port, write `stdout`.
#![tactic(auto)]

use leafnet_text::answer_to;
use leafnet_text::lines::Text;
use std::io;
use std::io::{Read, Write};

// The first record and what stands behind it; none where no whole record is left.
fn split_record(bytes: &[u8]) -> Option<(&[u8], &[u8])> {
    let (length, rest) = bytes.split_first_chunk::<4>()?;
    rest.split_at_checked(u32::from_be_bytes(*length) as usize)
}

fn main(rt: HostRuntime) -> io::Result<()> {
    let mut bytes = Vec::new(rt.alloc());
    rt.reader().read_to_end(&mut bytes)?;
    let mut out = io::writer(&rt);
    let mut text = Text::new();
    let mut left = bytes.as_slice();
    for _ in 0..bytes.len() {
        let Some((record, rest)) = split_record(left) else {
            break;
        };
        answer_to(record, &mut text);
        out.write_all(text.as_str().as_bytes())?;
        left = rest;
    }
    Ok(())
}
