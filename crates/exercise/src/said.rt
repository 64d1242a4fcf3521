// What a pile says of a path.
use std::fmt;

// A pile that is not sharp has no line for its yes.
#[derive(Clone, Copy)]
pub enum Said {
    No,
    Yes,
    Line(i32, i32, i32),
}

impl From<bool> for Said {
    fn from(yes: bool) -> Said {
        if yes { Said::Yes } else { Said::No }
    }
}

impl From<Option<(i32, i32, i32)>> for Said {
    fn from(line: Option<(i32, i32, i32)>) -> Said {
        match line {
            Some((a, b, c)) => Said::Line(a, b, c),
            None => Said::No,
        }
    }
}

impl fmt::Display for Said {
    fn fmt<W: fmt::Write>(&self, f: &mut fmt::Formatter<W>) -> fmt::Result {
        match self {
            Said::No => f.write_str("no"),
            Said::Yes => f.write_str("yes"),
            Said::Line(a, b, c) => write!(f, "line {a} {b} {c}"),
        }
    }
}
