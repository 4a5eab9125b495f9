//! A reader of lent bytes.
use fields::reader::Reader;
use refusals::Refusal;

#[test]
fn reads_in_turn(rt: HostRuntime) {
    let mut reader = Reader::new(&[1, 2, 3, 255, 255, 255, 255, 255, 255, 255, 254, 9]);
    assert_eq!(rt; reader.read_u8(), Some(1));
    assert_eq!(rt; reader.read_u16_within(0, 514), Err(Refusal::OutOfRange(1)));
    assert_eq!(rt; reader.read_u16(), Some(515));
    assert_eq!(rt; reader.read_i64(), Some(-2));
    assert_eq!(rt; (reader.offset(), reader.left()), (11, 1));
    assert_eq!(rt; reader.read_u32(), None);
    assert_eq!(rt; reader.read_u8(), Some(9));
}
