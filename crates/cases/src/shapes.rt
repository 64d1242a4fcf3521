// Posts, crossings, lines and the one check.
use crate::quads::quad;
use plane::check::first_wrong;
use plane::corner::Corner;
use plane::crossing::Crossing;
use plane::line::Line;
use plane::post::Post;
use std::test::Fail;

#[test]
fn limits_of_posts(rt: HostRuntime) {
    assert!(rt; Post::new(10_000, -10_000).is_ok());
    assert!(rt; Post::new(10_001, 0).is_err());
    assert!(rt; Post::new(0, -10_001).is_err());
    assert!(rt; Post::new(i32::MIN, 0).is_err());
}

#[test]
fn limits_of_lines(rt: HostRuntime) {
    assert!(rt; Line::new(20_000, -20_000, 200_000_000).is_ok());
    assert!(rt; Line::new(20_001, 0, 0).is_err());
    assert!(rt; Line::new(0, -20_001, 0).is_err());
    assert!(rt; Line::new(0, 1, -200_000_001).is_err());
    assert!(rt; Line::new(0, 0, 5).is_err());
}

#[test]
fn refused_with_eight(rt: HostRuntime) -> Result<(), Fail> {
    let p = Post::new(3, 4)?;
    match Crossing::new(p, p) {
        Ok(_) => Err(Fail::new("two equal posts")),
        Err(e) => {
            assert_eq!(rt; e.number(), 8);
            Ok(())
        },
    }
}

// The line from (0, 0) to (4, 0) has the points above it at its left.
#[test]
fn sits_wrongly(rt: HostRuntime) -> Result<(), Fail> {
    let p = Post::new(0, 0)?;
    let q = Post::new(4, 0)?;
    let Some(line) = Line::through(p, q) else {
        return Err(Fail::new("two points"));
    };
    assert_eq!(rt; line.numbers(), (0, 4, 0));
    assert_eq!(rt; line.value(1, 2), 8);
    let well = quad(0, 1, 9, 0);
    let left_below = quad(1, -1, 1, -2);
    let right_above = quad(1, 1, 2, 1);
    assert_eq!(rt; first_wrong(&line, &[well, well]), None);
    assert_eq!(rt;
        first_wrong(&line, &[well, left_below, right_above]),
        Some(1)
    );
    assert_eq!(rt; first_wrong(&line, &[right_above, left_below]), Some(0));
    let above = Corner {
        at: Post::new(7, 1)?,
    };
    let on = Corner { at: q };
    assert_eq!(rt; first_wrong(&line, &[above, above, on]), Some(2));
    assert_eq!(rt; first_wrong(&line, &[above]), None);
    Ok(())
}
