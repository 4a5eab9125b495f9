//! One square of side 4, of layer 1: its record of 102 bytes is read, and written again.
use record::{BoardRows, BoardRowsMut, Counts, Read, Settings, check, read, write};
use refusals::Refusal;

const SQUARE: [u8; 102] = [
    1, 0, 0, 0, 97, 1, 1, 0, 0, 0, 0, 0, 0, 0, 0, 4, 0, 0, 0, 1, 0, 1, 0, 0, 0, 0, 63, 240, 0, 0,
    0, 0, 0, 0, 0, 4, 0, 0, 0, 0, 0, 0, 0, 0, 0, 0, 0, 0, 0, 0, 0, 0, 0, 0, 0, 0, 0, 0, 0, 4, 0, 0,
    0, 0, 0, 0, 0, 0, 0, 0, 0, 0, 0, 0, 0, 4, 0, 0, 0, 0, 0, 0, 0, 4, 0, 0, 0, 0, 0, 0, 0, 0, 0, 0,
    0, 0, 0, 0, 0, 4, 0, 0,
];

const FOUND: Read = Read {
    settings: Settings {
        level: 1,
        cap: 256,
        target: 4,
    },
    counts: Counts {
        layers: 0,
        polygons: 1,
        points: 4,
        splits: 0,
    },
};

#[test]
fn judged(rt: HostRuntime) {
    assert_eq!(rt; check(&SQUARE), Ok(FOUND));
    assert_eq!(rt; check(&SQUARE[..101]), Err(Refusal::WrongLength(1)));
}

#[test]
fn a_level_by_default(rt: HostRuntime) {
    let mut record = SQUARE;
    record[5] = 255;
    let settings = Settings {
        level: 4,
        ..FOUND.settings
    };
    assert_eq!(rt; check(&record), Ok(Read { settings, ..FOUND }));
    record[5] = 254;
    assert_eq!(rt; check(&record), Err(Refusal::OutOfRange(5)));
}

#[test]
fn read_and_written(rt: HostRuntime) {
    let mut polygons = [[9; 3]; 2];
    let mut sheets = [9.0; 1];
    let mut points = [[9; 2]; 5];
    let rows = BoardRowsMut {
        layers: &mut [],
        polygons: &mut polygons,
        sheets: &mut sheets,
        points: &mut points,
        splits: &mut [],
    };
    assert_eq!(rt; read(&SQUARE, rows), Ok(FOUND));
    assert_eq!(rt; polygons, [[1, 0, 4], [9; 3]]);
    assert!(rt; sheets[0] == 1.0);
    assert_eq!(rt; points, [[0, 0], [4, 0], [4, 4], [0, 4], [9; 2]]);
    let rows = BoardRows {
        layers: &[],
        polygons: &polygons[..1],
        sheets: &sheets,
        points: &points[..4],
        splits: &[],
    };
    let mut out = [9; 102];
    assert_eq!(rt; write(FOUND.settings, &rows, &mut out), Ok(102));
    assert_eq!(rt; out, SQUARE);
}

#[test]
fn a_target_of_0(rt: HostRuntime) {
    let mut none = SQUARE;
    none[15] = 0;
    assert_eq!(rt; check(&none), Err(Refusal::OutOfRange(8)));
}
