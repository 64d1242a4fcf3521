// Polygon plans, read and refused.
use crate::refusal::{Refusal, refusal};
use maps::passage::Passage;
use plane::corner::Corner;
use plane::post::Post;
use polygon::counts::Counts;
use polygon::plans::read;
use std::process::Abort;

const ONE_ROOM: Counts = Counts {
    rooms: 1,
    doorways: 0,
};

const FULL_DOORWAY: Passage = Passage {
    near: 7,
    ..Passage::NONE
};

const FULL_CORNER: Corner = Corner {
    at: Post { x: 7, y: 7 },
};

// What the reader says of a text, and the first doorway that it writes.
fn reading(text: &[u8]) -> (Result<Counts, Refusal>, Passage) {
    let mut doorways = [Passage::NONE; 2048];
    let mut corners = [Corner::ORIGIN; 1024];
    let mut numbers = [0u16; 4096];
    let said = read(text, &mut doorways, &mut corners, &mut numbers);
    (said.map_err(refusal), doorways[0])
}

// The text is refused so, and the spaces are left all zeros.
fn refused(rt: &impl Abort, text: &[u8], expected: Refusal) {
    let mut doorways = [FULL_DOORWAY; 2048];
    let mut corners = [FULL_CORNER; 1024];
    let mut numbers = [7u16; 4096];
    let said = read(text, &mut doorways, &mut corners, &mut numbers).map_err(refusal);
    assert_eq!(rt; said, Err(expected), "{}", text.escape_ascii());
    assert_eq!(rt; doorways, [Passage::NONE; 2048], "{}", text.escape_ascii());
    assert_eq!(rt; corners, [Corner::ORIGIN; 1024], "{}", text.escape_ascii());
    assert_eq!(rt; numbers, [0; 4096], "{}", text.escape_ascii());
}

#[test]
fn faults_of_layout(rt: HostRuntime) {
    let cases = [
        ("OF", 13, 2, 0),
        ("OFFx", 13, 2, 0),
        ("OFF", 12, 1, 3),
        ("OFF ", 12, 1, 4),
        ("OFF 2", 14, 2, 4),
        ("OFF 1024", 12, 1, 8),
        ("OFF 1025", 14, 2, 4),
        ("OFF 3 0", 14, 2, 6),
        ("OFF 3 256", 12, 1, 9),
        ("OFF 3 257", 14, 2, 6),
        ("OFF 3 1 -", 10, 1, 8),
        ("OFF 3 1 0 0000000", 11, 1, 10),
        ("OFF 3 1 0 -0000000", 11, 1, 10),
        ("OFF 3 1 0 -", 12, 1, 11),
        ("OFF 3 1 0 - 1", 10, 1, 11),
        ("OFF 3 1 0 0 0 0 4 0 0 0 4 0 3 0 1 2 x", 15, 2, 36),
    ];
    for (text, number, layer, place) in cases {
        refused(&rt, text.as_bytes(), (number, layer, place));
    }
}

#[test]
fn faults_of_maps(rt: HostRuntime) {
    let cases = [
        ("OFF 3 1 0 10001", 17, 3, 10),
        ("OFF 3 1 0 -10001", 17, 3, 10),
        ("OFF 3 1 0 0 10001", 17, 3, 12),
        ("OFF 3 1 0 0 0 1", 17, 3, 14),
        ("OFF 3 1 0 0 0 0 4 0 0 0 4 0 2", 18, 3, 28),
        ("OFF 3 1 0 0 0 0 4 0 0 0 4 0 17", 18, 3, 28),
        ("OFF 3 1 0 0 0 0 4 0 0 0 4 0 3 0 1 3", 18, 3, 34),
        ("OFF 3 1 0 0 0 0 4 0 0 0 4 0 3 0 2 1", 19, 3, 0),
        ("OFF 3 1 0 0 0 0 4 0 0 0 4 0 3 0 1 1", 19, 3, 0),
        ("OFF 3 1 0 0 0 0 4 0 0 2 0 0 3 0 1 2", 19, 3, 0),
        ("OFF 3 2 0 0 0 0 4 0 0 0 4 0 3 0 1 2 3 0 1 2", 20, 3, 1),
    ];
    for (text, number, layer, place) in cases {
        refused(&rt, text.as_bytes(), (number, layer, place));
    }
}

// One triangle, in the plainest words and at the limits: numbers of six digits, zeros with a sign, the farthest corners.
#[test]
fn triangles(rt: HostRuntime) {
    let texts = [
        "OFF 3 1 0 0 0 0 4 0 0 0 4 0 3 0 1 2",
        "OFF 000003 000001 999999 0 0 0 4 0 0 0 4 0 3 0 1 2",
        "OFF 3 1 0 -0 0 0 4 0 0 0 4 0 3 0 1 2\n",
        "OFF 3 1 0 -0 0 -0 4 0 0 0 4 0 3 0 1 2\n",
        "OFF 3 1 0 -10000 -10000 0 10000 -10000 0 0 10000 0 3 0 1 2",
    ];
    for text in texts {
        assert_eq!(rt; reading(text.as_bytes()).0, Ok(ONE_ROOM), "{}", text);
    }
}

// A square cut into two, whose cut is a doorway; and the same with corners below 0.
#[test]
fn cut_squares(rt: HostRuntime) {
    let two = Counts {
        rooms: 2,
        doorways: 1,
    };
    let cut = Passage {
        near: 0,
        far: 1,
        left_x: 0,
        left_y: 0,
        right_x: 4,
        right_y: 4,
    };
    let (said, first) = reading(b"OFF 4 2 5 0 0 0 4 0 0 4 4 0 0 4 0 3 0 1 2 3 0 2 3");
    assert_eq!(rt; said, Ok(two));
    assert_eq!(rt; first, cut);
    let below = Passage {
        left_x: -4,
        left_y: -3,
        right_x: 0,
        right_y: 1,
        ..cut
    };
    let (said, first) = reading(b"OFF 4 2 5 -4 -3 0 0 -3 0 0 1 0 -4 1 0 3 0 1 2 3 0 2 3");
    assert_eq!(rt; said, Ok(two));
    assert_eq!(rt; first, below);
}

// Each byte of white space parts numbers, and no other byte does.
#[test]
fn white_space(rt: HostRuntime) {
    for b in 0..=255u8 {
        let mut text = *b"OFF 3 1 0 0 0 0 4 0 0 0 4 0 3 0 1 2 ";
        for x in text.iter_mut() {
            if *x == b' ' {
                *x = b;
            }
        }
        if b == 32 || (9 <= b && b <= 13) {
            assert_eq!(rt; reading(&text).0, Ok(ONE_ROOM));
        } else {
            refused(&rt, &text, (13, 2, 0));
        }
    }
}

// The longest text, and one byte more.
#[test]
fn long_texts(rt: HostRuntime) {
    let mut text = [b' '; 60_001];
    text[..35].copy_from_slice(b"OFF 3 1 0 0 0 0 4 0 0 0 4 0 3 0 1 2");
    assert_eq!(rt; reading(&text[0..60_000]).0, Ok(ONE_ROOM));
    refused(&rt, &text, (14, 2, 60_000));
}

// Writes `part` into `text`, from the place `at` on.
fn write_at(text: &mut [u8], at: usize, part: &[u8]) {
    for (place, b) in text.iter_mut().skip(at).zip(part) {
        *place = *b;
    }
}

// Writes a zero at each second place of `text` from `start` to `end`.
fn write_zeros(text: &mut [u8], start: usize, end: usize) {
    for place in text.iter_mut().take(end).skip(start).step_by(2) {
        *place = b'0';
    }
}

// The most corners: three of a triangle, and 1,021 that no face uses.
#[test]
fn many_corners(rt: HostRuntime) {
    let mut text = [b' '; 6164];
    write_at(&mut text, 0, b"OFF 1024 1 0 0 0 0 4 0 0 0 4 0");
    write_zeros(&mut text, 31, 6157);
    write_at(&mut text, 6157, b"3 0 1 2");
    assert_eq!(rt; reading(&text).0, Ok(ONE_ROOM));
    text[7] = b'5';
    refused(&rt, &text, (14, 2, 4));
}

// These spaces, of which one is too short, stay as they were.
fn short(rt: &impl Abort, doorways: &mut [Passage], corners: &mut [Corner], numbers: &mut [u16]) {
    let text = b"OFF 3 1 0 0 0 0 4 0 0 0 4 0 3 0 1 2";
    let said = read(text, doorways, corners, numbers).map_err(refusal);
    assert_eq!(rt; said, Err((6, 2, 0)));
    assert!(rt; doorways.iter().all(|x| *x == FULL_DOORWAY));
    assert!(rt; corners.iter().all(|x| *x == FULL_CORNER));
    assert!(rt; numbers.iter().all(|x| *x == 7));
}

#[test]
fn short_spaces(rt: HostRuntime) {
    let mut doorways = [FULL_DOORWAY; 2048];
    let mut corners = [FULL_CORNER; 1024];
    let mut numbers = [7u16; 4096];
    short(&rt, &mut [FULL_DOORWAY; 2047], &mut corners, &mut numbers);
    short(&rt, &mut doorways, &mut [FULL_CORNER; 1023], &mut numbers);
    short(&rt, &mut doorways, &mut corners, &mut [7u16; 4095]);
}
