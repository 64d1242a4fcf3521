// What is printed of an order that was served.
use std::fmt;
use visibility::call::Answer;
use visibility::order::Order;
use visibility::sightline::Sightline;

// The answer of this order.
#[derive(Clone, Copy)]
pub struct Said<'a>(pub &'a Order);

// The bytes in hexadecimal, some at a time: one by one through the formatter takes several times as long.
fn hexadecimal<W: fmt::Write>(f: &mut fmt::Formatter<W>, bytes: &[u8]) -> fmt::Result {
    let mut digits = [0u8; 64];
    for part in bytes.chunks(32) {
        let digits = digits.get_mut(..2 * part.len()).ok_or(fmt::Error)?;
        hex::encode_to_slice(part, digits).map_err(|_| fmt::Error)?;
        f.write_str(std::str::from_utf8(digits).map_err(|_| fmt::Error)?)?;
    }
    Ok(())
}

// The line, and the doorways of the walk, which stand in front of `doorways`.
fn witness<W: fmt::Write>(
    f: &mut fmt::Formatter<W>,
    sightline: Sightline,
    doorways: &[usize],
) -> fmt::Result {
    let (a, b, c) = sightline.line;
    write!(f, "line {a} {b} {c} doorways")?;
    for k in doorways.iter().take(sightline.doorways) {
        write!(f, " {k}")?;
    }
    Ok(())
}

impl<'a> fmt::Display for Said<'a> {
    fn fmt<W: fmt::Write>(&self, f: &mut fmt::Formatter<W>) -> fmt::Result {
        let order = self.0;
        match order.answer {
            Some(Ok(Answer::Count(n))) => write!(f, "{n}"),
            Some(Ok(Answer::Seen(true))) => f.write_str("yes"),
            Some(Ok(Answer::Seen(false))) => f.write_str("no"),
            Some(Ok(Answer::Found(sightline))) => witness(f, sightline, order.doorways.as_slice()),
            Some(Ok(Answer::Written(count))) => {
                hexadecimal(
                    f,
                    order.bytes.get(..count).unwrap_or(order.bytes.as_slice()),
                )
            }
            Some(Ok(Answer::NotSharp)) => f.write_str("not sharp"),
            Some(Err(refusal)) => {
                let number = refusal.number();
                write!(f, "refused {number}")
            }
            None => f.write_str("not answered"),
        }
    }
}
