// Numbers, good and bad, from the front of a text.
use crate::refusal::{Refusal, refusal};
use text::{Lexer, Number};

fn good(magnitude: u32, negative: bool, start: usize) -> Result<Number, Refusal> {
    Ok(Number {
        magnitude,
        negative,
        start,
    })
}

fn bad(number: u8, place: usize) -> Result<Number, Refusal> {
    Err((number, 1, place))
}

#[test]
fn numbers(rt: HostRuntime) {
    let cases = [
        ("0", false, good(0, false, 0)),
        (" \t\n17 4", false, good(17, false, 3)),
        ("123456", false, good(123456, false, 0)),
        ("000012 ", false, good(12, false, 0)),
        ("1234567", false, bad(11, 0)),
        ("  0000001", false, bad(11, 2)),
        ("", false, bad(12, 0)),
        ("   ", false, bad(12, 3)),
        ("-5", false, bad(10, 0)),
        ("5-", false, bad(10, 1)),
        ("12a", false, bad(10, 2)),
        (" +5", true, bad(10, 1)),
        ("-5", true, good(5, true, 0)),
        ("-0", true, good(0, true, 0)),
        (" -999999\n", true, good(999999, true, 1)),
        (" -1234567", true, bad(11, 1)),
        ("- 5", true, bad(10, 1)),
        ("--5", true, bad(10, 1)),
        (" -", true, bad(12, 2)),
        ("5-5", true, bad(10, 1)),
    ];
    for (text, signed, answer) in cases {
        let said = Lexer::new(text.as_bytes(), 0).number(signed);
        assert_eq!(rt; said.map_err(refusal), answer, "{text}");
    }
}
