// drill PLAN PILE: takes orders for a plan's table from standard input, and prints each with its answer.
#![tactic(auto)]

mod lines;
mod orders;
mod said;
mod session;

use anyhow::bail;
use decks::Plan;
use maps::map::Map;
use piles::pile::Pile;
use piles::task::Task;
use session::Session;
use stabbing::stabber::{Sharp, Stabber};
use std::io::Read;
use std::{env, fs};
use visibility::order::Order;
use visibility::run::{run, run_sharp};

// Says how the program is called, and that it was not called so.
fn usage(rt: &HostRuntime) -> anyhow::Result<()> {
    eprintln!(rt; "usage: drill PLAN PILE")?;
    eprintln!(rt; "PILE is one of exact, wedge, memory-exact, both-wedge-exact,")?;
    eprintln!(rt; "memory-both-wedge-exact, both-wedge-memory-exact, memory-memory-exact")?;
    bail!("no plan, no pile, or a file that cannot be read")
}

// The orders for a fresh table over a plan.
struct TableOrders<'a> {
    plan: Plan,
    orders: &'a mut [Order],
}

impl<'a> Task for TableOrders<'a> {
    type Done = ();

    fn over<S: Stabber + Drop>(self, stabber: S) {
        let TableOrders { plan, orders } = self;
        drop(run(plan, stabber, orders));
    }

    fn over_sharp<S: Sharp + Drop>(self, stabber: S) {
        let TableOrders { plan, orders } = self;
        drop(run_sharp(plan, stabber, orders));
    }
}

// Says what the plan's map has, takes all orders, runs them on a fresh table, and prints each with its answer.
fn serve(rt: &HostRuntime, plan: Plan, pile: Pile) -> anyhow::Result<()> {
    let heap = rt.alloc();
    let rooms = plan.room_count();
    let doorways = plan.doorway_count();
    println!(rt; "plan: {rooms} rooms, {doorways} doorways")?;
    let mut input = Vec::new(heap);
    rt.stdin().read_to_end(&mut input)?;
    let mut session = Session::of(heap, rooms, input.as_slice())?;
    let orders = session.orders.as_mut_slice();
    pile.perform(TableOrders { plan, orders });
    session.print(rt)
}

fn start(rt: &HostRuntime) -> anyhow::Result<()> {
    let mut words = env::args(rt)?.skip(1);
    let (Some(plan), Some(pile), None) = (words.next(), words.next(), words.next()) else {
        return usage(rt);
    };
    let Ok(pile) = pile.as_str().parse::<Pile>() else {
        return usage(rt);
    };
    let Ok(text) = fs::read(rt, plan.as_str()) else {
        return usage(rt);
    };
    match Plan::read(text.as_slice()) {
        Ok(plan) => serve(rt, plan, pile),
        Err(fault) => {
            println!(rt; "refused {fault}")?;
            bail!("the plan is refused")
        }
    }
}

fn main(rt: HostRuntime) -> anyhow::Result<()> {
    start(&rt)
}
