//! What a row may hold, and how it stands in a stream.
use crate::Cases;
use std::num::f64_from_bits_with_nan;

pub trait Stored {
    fn stored(cases: &mut Cases) -> Self;
}

impl Stored for u64 {
    fn stored(cases: &mut Cases) -> u64 {
        cases.word()
    }
}

impl Stored for i64 {
    fn stored(cases: &mut Cases) -> i64 {
        cases.word().cast_signed()
    }
}

impl Stored for u16 {
    fn stored(cases: &mut Cases) -> u16 {
        u16::try_from(cases.word()).unwrap_or(u16::MAX)
    }
}

impl Stored for u32 {
    fn stored(cases: &mut Cases) -> u32 {
        u32::try_from(cases.word()).unwrap_or(u32::MAX)
    }
}

impl Stored for f64 {
    fn stored(cases: &mut Cases) -> f64 {
        f64_from_bits_with_nan(cases.word())
    }
}

impl Stored for [u64; 2] {
    fn stored(cases: &mut Cases) -> [u64; 2] {
        [cases.word(), cases.word()]
    }
}

impl Stored for [i64; 2] {
    fn stored(cases: &mut Cases) -> [i64; 2] {
        [i64::stored(cases), i64::stored(cases)]
    }
}

impl Stored for [i64; 4] {
    fn stored(cases: &mut Cases) -> [i64; 4] {
        [
            i64::stored(cases),
            i64::stored(cases),
            i64::stored(cases),
            i64::stored(cases),
        ]
    }
}
