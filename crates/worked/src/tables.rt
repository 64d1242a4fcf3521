// The two plans through the public calls: read, made into a map, and asked through a table.
use crate::plans;
use grid::{GridMap, read};
use stabbing::exact::Exact;
use stabbing::memory::Memory;
use stabbing::stabber::Stabber;
use stabbing::wedge::Wedge;
use std::process::Abort;
use std::test::Fail;
use visibility::refusal::Refusal;
use visibility::table::Table;

fn map_of(text: &[u8]) -> Result<GridMap, Fail> {
    let mut space = [7u8; 1539];
    let size = read(text, &mut space)?;
    Ok(GridMap::new(size, &space))
}

// Row a shows exactly the rooms below 10 whose bits are 1; the highest bit is that of room 0.
fn shows_row<S: Stabber>(rt: &impl Abort, table: &Table<GridMap, S>, a: usize, bits: u16) {
    for b in 0..10 {
        assert_eq!(rt; table.shows(a, b), Ok((bits >> (15 - b)) % 2 == 1));
    }
}

// The bitmap of four rooms, once all rows are filled.
fn bitmap_of_four<S: Stabber>(table: &mut Table<GridMap, S>) -> Result<[u8; 11], Refusal> {
    let mut space = [9; 11];
    for a in 0..4 {
        table.fill(a)?;
    }
    table.bitmap(&mut space)?;
    Ok(space)
}

#[test]
fn line_through_two_doorways(rt: HostRuntime) -> Result<(), Fail> {
    let mut ring = Table::new(map_of(plans().0)?, Exact {});
    let mut doorways = [9; 3];
    let witness = ring.witness(0, 3, &mut doorways)?;
    assert_eq!(rt; witness.doorways, 2);
    assert_eq!(rt; doorways, [0, 2, 9]);
    assert_eq!(rt; witness.line, (-1, 1, 1));
    Ok(())
}

#[test]
fn shut_doorway(rt: HostRuntime) -> Result<(), Fail> {
    let mut ring = Table::new(map_of(plans().0)?, Exact {});
    let mut doorways = [9; 3];
    assert_eq!(rt; ring.shut(1), Ok(0));
    match ring.witness(0, 2, &mut doorways) {
        Ok(_) => return Err(Fail::new("a line")),
        Err(refusal) => assert_eq!(rt; refusal.number(), 7),
    }
    assert_eq!(rt; doorways, [9, 9, 9]);
    assert_eq!(rt; bitmap_of_four(&mut ring)?, *b"P4\n4 4\n\xD0\xF0\x70\xF0");
    Ok(())
}

#[test]
fn bitmap_over_memory(rt: HostRuntime) -> Result<(), Fail> {
    let mut ring = Table::new(map_of(plans().0)?, Memory::new(Exact {}));
    assert_eq!(rt; bitmap_of_four(&mut ring)?, *b"P4\n4 4\n\xF0\xF0\xF0\xF0");
    Ok(())
}

#[test]
fn rows_under_exact_and_wedge(rt: HostRuntime) -> Result<(), Fail> {
    let mut exact = Table::new(map_of(plans().1)?, Exact {});
    assert_eq!(rt; exact.fill(0), Ok(5));
    shows_row(&rt, &exact, 0, 0xC380);
    let mut wedge = Table::new(map_of(plans().1)?, Wedge {});
    assert_eq!(rt; wedge.fill(0), Ok(6));
    shows_row(&rt, &wedge, 0, 0xC3C0);
    Ok(())
}

#[test]
fn line_through_four_doorways(rt: HostRuntime) -> Result<(), Fail> {
    let mut corridor = Table::new(map_of(plans().1)?, Exact {});
    let mut doorways = [9; 9];
    let witness = corridor.witness(0, 8, &mut doorways)?;
    assert_eq!(rt; witness.doorways, 4);
    assert_eq!(rt; doorways, [0, 1, 2, 3, 9, 9, 9, 9, 9]);
    assert_eq!(rt; witness.line, (-2, 4, -4));
    match corridor.witness(0, 9, &mut doorways) {
        Ok(_) => Err(Fail::new("a line")),
        Err(refusal) => {
            assert_eq!(rt; refusal.number(), 7);
            Ok(())
        },
    }
}

#[test]
fn row_stays_filled(rt: HostRuntime) -> Result<(), Fail> {
    let mut corridor = Table::new(map_of(plans().1)?, Exact {});
    assert_eq!(rt; corridor.fill(0), Ok(5));
    assert_eq!(rt; corridor.fill(5), Ok(1));
    assert_eq!(rt; corridor.shut(4), Ok(1));
    assert_eq!(rt; corridor.shows(0, 8), Err(Refusal::NotFilled));
    shows_row(&rt, &corridor, 5, 0x0400);
    Ok(())
}
