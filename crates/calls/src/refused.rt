//! The refusals' numbers and places, and their words.
use refusals::{Code, Refusal};
use std::test::Fail;

#[test]
fn numbers_and_places(rt: HostRuntime) {
    let wants = [
        (Refusal::WrongVersion, 1, 0),
        (Refusal::WrongLength(28), 2, 28),
        (Refusal::BadTable, 7, 0),
        (Refusal::FinestLevel(3), 10, 3),
    ];
    for (refusal, number, place) in wants {
        assert_eq!(rt; refusal.code(), Code { number, place });
    }
}

#[test]
fn in_words(rt: HostRuntime) -> Result<(), Fail> {
    let text = format!(in rt.alloc(); "{}", Refusal::AlreadySplit(3))?;
    assert_eq!(rt; text.as_str(), "cell 3 is split already");
    let text = format!(in rt.alloc(); "{:?}", Refusal::Slanted(1))?;
    assert_eq!(rt; text.as_str(), "Slanted(1)");
    Ok(())
}
