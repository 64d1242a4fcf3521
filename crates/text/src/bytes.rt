// The kinds of bytes that a lexer tells apart.
ghost use Rattle.std.specs.Prelude.{◌≡◌};
ghost use Rattle.text.specs.Bytes.{white, class};

#[derive(Clone, Copy, PartialEq, Debug)]
pub(crate) enum Class {
    // White space.
    Blank,
    Minus,
    Digit(u8),
    Other,
}

// White space: the bytes 9 to 13, and 32.
pub fn is_white(b: u8) -> bool
    ensures { result ≡ white b }
{
    matches!(b, 9..=13 | 32)
}

pub(crate) fn class_of(b: u8) -> Class
    ensures { result ≡ class b }
{
    match b {
        9..=13 | 32 => Class::Blank,
        b'0'..=b'9' => Class::Digit(b - b'0'),
        b'-' => Class::Minus,
        _ => Class::Other,
    }
}
