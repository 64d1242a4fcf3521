// A session: the lines of the input, and the orders among them.
use crate::lines::trimmed;
use crate::orders::order;
use crate::said::Said;
use std::alloc::{AllocError, Global};
use std::io::{BufWriter, Write};
use visibility::order::Order;

// A line that is not empty, without the white space at its ends, and whether it is an order.
#[derive(Clone, Copy)]
struct Line<'a> {
    text: &'a [u8],
    is_order: bool,
}

// The orders stand together, since a run takes them so: one for each line that is an order.
#[derive(Drop)]
pub struct Session<'a> {
    lines: Vec<Line<'a>>,
    pub orders: Vec<Order>,
}

impl<'a> Session<'a> {
    // The lines of the input, for a plan of so many rooms.
    pub fn of(heap: Global, rooms: usize, input: &'a [u8]) -> Result<Session<'a>, AllocError> {
        let mut lines = Vec::new(heap);
        let mut orders = Vec::new(heap);
        for line in input.split(|b| *b == b'\n') {
            let text = trimmed(line);
            if text.is_empty() {
                continue;
            }
            let order = order(heap, rooms, text)?;
            let is_order = order.is_some();
            lines.push(Line { text, is_order })?;
            if let Some(order) = order {
                orders.push(order)?;
            }
        }
        Ok(Session { lines, orders })
    }

    // Prints each line, a colon, a blank and what is said of it.
    pub fn print(&self, rt: &HostRuntime) -> anyhow::Result<()> {
        let mut out = BufWriter::new(rt.alloc(), rt.stdout())?;
        let mut orders = self.orders.iter();
        for line in self.lines.iter() {
            out.write_all(line.text)?;
            let order = if line.is_order { orders.next() } else { None };
            match order {
                Some(order) => writeln!(out, ": {}", Said(order))?,
                None => writeln!(out, ": not an order")?,
            }
        }
        out.flush()?;
        Ok(())
    }
}
