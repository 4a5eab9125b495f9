//! Answers as text: a word, numbers with a space in front, the line's end.
use refusals::Refusal;
use std::alloc::AllocError;
use std::fmt::{Display, Write};
use table::Head;

// The numbers of a row.
pub fn row<T: Display>(out: &mut String, row: &[T]) -> Result<(), AllocError> {
    for n in row {
        write!(out, " {n}")?;
    }
    writeln!(out)
}

// A fraction by its 64 bits. A NaN is no answer of any call; where a row holds one it is printed as "nan".
fn fraction(out: &mut String, g: f64) -> Result<(), AllocError> {
    if g.is_nan() {
        write!(out, " nan")
    } else {
        write!(out, " {:016x}", g.to_bits())
    }
}

pub fn fractions(out: &mut String, row: &[f64]) -> Result<(), AllocError> {
    for g in row {
        fraction(out, *g)?;
    }
    writeln!(out)
}

pub fn rectangles(out: &mut String, row: &[[i64; 4]]) -> Result<(), AllocError> {
    for r in row {
        write!(out, " {} {} {} {}", r[0], r[1], r[2], r[3])?;
    }
    writeln!(out)
}

pub fn refused(out: &mut String, why: Refusal) -> Result<(), AllocError> {
    let code = why.code();
    writeln!(out, " refused {} {}", code.number, code.place)
}

// What a call answered: its values as `show` prints them, or its refusal.
pub fn answered<T, F: FnOnce(&mut String, T) -> Result<(), AllocError>>(
    out: &mut String,
    answer: Result<T, Refusal>,
    show: F,
) -> Result<(), AllocError>
where
    requires { F.IsAlwaysCallable show }
{
    match answer {
        Ok(values) => show(out, values),
        Err(why) => refused(out, why),
    }
}

// The same of a call whose only value is a count.
pub fn counted(out: &mut String, answer: Result<usize, Refusal>) -> Result<(), AllocError> {
    answered(out, answer, |out, n| writeln!(out, " {n}"))
}

// A table's head.
pub fn head(out: &mut String, head: Head) -> Result<(), AllocError> {
    writeln!(out, " {} {} {}", head.count, head.leaves, head.max_level)
}

// A row of numbers without the zeros at its end, as work room is after an accepted call.
pub fn work(out: &mut String, work: &[u64]) -> Result<(), AllocError> {
    let n = work
        .iter()
        .rposition(|x| *x != 0)
        .map_or(0, |last| last + 1);
    row(out, &work[..n])
}
