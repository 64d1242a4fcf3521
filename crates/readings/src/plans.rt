// Plans, read and refused.
use crate::refusal::{Refusal, refusal};
use grid::{Size, read};
use std::process::Abort;

// The text is refused so, and the space is left all zeros.
fn refused(rt: &impl Abort, text: &[u8], expected: Refusal) {
    let mut space = [7u8; 1539];
    let said = read(text, &mut space).map_err(refusal);
    assert_eq!(rt; said, Err(expected), "{}", text.escape_ascii());
    assert_eq!(rt; space, [0; 1539], "{}", text.escape_ascii());
}

// The text is a plan of this size.
fn accepted(rt: &impl Abort, text: &[u8], w: u16, h: u16) {
    let mut space = [7u8; 1539];
    assert_eq!(rt; read(text, &mut space), Ok(Size { w, h }));
}

#[test]
fn refusals(rt: HostRuntime) {
    let cases = [
        ("P1 5 5 2", 10, 1, 7),
        ("P1 5 5 1111-", 10, 1, 11),
        ("P1 x", 10, 1, 3),
        ("P1 3x", 10, 1, 4),
        ("P1 -3 3", 10, 1, 3),
        ("P1 0000003 3", 11, 1, 3),
        ("P1 3 1234567", 11, 1, 5),
        ("P1", 12, 1, 2),
        ("P1 ", 12, 1, 3),
        ("P1 3 ", 12, 1, 5),
        ("P1 3 3", 12, 1, 6),
        ("P1 5 5 111", 12, 1, 10),
        ("P1 3 3 11110111", 12, 1, 15),
        ("", 13, 2, 0),
        ("P", 13, 2, 0),
        ("P4 3 3", 13, 2, 0),
        ("P1x", 13, 2, 0),
        (" P1 3 3", 13, 2, 0),
        ("P1 4 3", 14, 2, 3),
        ("P1 1 3", 14, 2, 3),
        ("P1 0 3", 14, 2, 3),
        ("P1 3 4", 14, 2, 5),
        ("P1 3 1", 14, 2, 5),
        ("P1 515 3 ", 14, 2, 7),
        ("P1 3 515", 14, 2, 5),
        ("P1 33 35", 14, 2, 6),
        ("P1 999999 3", 14, 2, 10),
        ("P1 3 3 111 101 111 1", 15, 2, 19),
        ("P1 3 3 111101111x", 15, 2, 16),
        ("P1 3 3 111111111", 16, 3, 11),
        ("P1 3 3 0", 16, 3, 7),
        ("P1 5 5 11111 10001 10001", 16, 3, 21),
    ];
    for (text, number, layer, place) in cases {
        refused(&rt, text.as_bytes(), (number, layer, place));
    }
}

// A space that is too short stays as it was.
#[test]
fn short_space(rt: HostRuntime) {
    let mut space = [7u8; 1538];
    let said = read(b"P4", &mut space).map_err(refusal);
    assert_eq!(rt; said, Err((6, 2, 0)));
    assert_eq!(rt; space, [7; 1538]);
}

// The pixels of a plan, and zeros behind them.
#[test]
fn pixels(rt: HostRuntime) {
    let mut space = [7u8; 1600];
    let text = b"P1 5 5 11111 10001 10101 10001 11111";
    assert_eq!(rt; read(text, &mut space), Ok(Size { w: 2, h: 2 }));
    let plan = [
        1, 1, 1, 1, 1, 1, 0, 0, 0, 1, 1, 0, 1, 0, 1, 1, 0, 0, 0, 1, 1, 1, 1, 1, 1,
    ];
    assert!(rt; space.starts_with(&plan));
    assert!(rt; space.iter().skip(25).all(|x| *x == 0));
}

// Each byte of white space parts numbers and pixels, and no other byte does.
#[test]
fn white_space(rt: HostRuntime) {
    for b in 0..=255u8 {
        let mut text = *b"P1 3 3 111 101 111 ";
        for x in text.iter_mut() {
            if *x == b' ' {
                *x = b;
            }
        }
        if b == 32 || (9 <= b && b <= 13) {
            accepted(&rt, &text, 1, 1);
        } else {
            refused(&rt, &text, (13, 2, 0));
        }
    }
}

// Opens the rooms of a plan with `w` rooms in a row.
fn open_rooms(pixels: &mut [u8], w: u16) {
    let width = 2 * usize::from(w) + 1;
    for row in pixels.chunks_mut(width).skip(1).step_by(2) {
        for pixel in row.iter_mut().skip(1).step_by(2) {
            *pixel = b'0';
        }
    }
}

// The longest text, and one byte more.
#[test]
fn long_texts(rt: HostRuntime) {
    let mut text = [b' '; 60_001];
    text[..16].copy_from_slice(b"P1 3 3 111101111");
    accepted(&rt, &text[0..60_000], 1, 1);
    refused(&rt, &text, (14, 2, 60_000));
}

// The largest plans: 16 by 16 rooms, 256 by 1, and 1 by 256.
#[test]
fn large_plans(rt: HostRuntime) {
    let mut square = [b'1'; 1098];
    square[..9].copy_from_slice(b"P1 33 33 ");
    open_rooms(&mut square[9..], 16);
    accepted(&rt, &square, 16, 16);
    let mut row = [b'1'; 1548];
    row[..9].copy_from_slice(b"P1 513 3 ");
    open_rooms(&mut row[9..], 256);
    accepted(&rt, &row, 256, 1);
    let mut column = [b'1'; 1548];
    column[..9].copy_from_slice(b"P1 3 513 ");
    open_rooms(&mut column[9..], 1);
    accepted(&rt, &column, 1, 256);
}
