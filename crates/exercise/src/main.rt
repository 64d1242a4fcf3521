// exercise PLAN PILE: asks a pile of stabbers about paths through the doorways of a plan.
#![tactic(auto)]

mod order;
mod said;

use anyhow::bail;
use decks::Plan;
use maps::map::Map;
use order::path;
use piles::pile::Pile;
use piles::task::Task;
use plane::quad::Quad;
use said::Said;
use stabbing::stabber::{Sharp, Stabber};
use std::{env, fs};

// Takes the orders, and prints each with what is said when its path is asked for.
fn take_orders<F: FnMut(&[Quad]) -> Said + Drop>(
    rt: &HostRuntime,
    plan: &Plan,
    mut ask: F,
) -> anyhow::Result<()>
    requires { F.IsAlwaysCallable ask }
{
    let heap = rt.alloc();
    for line in rt.lines(heap) {
        let line = line?;
        let text = line.as_str().trim();
        if text.is_empty() {
            continue;
        }
        match path(heap, plan, text)? {
            Some(quads) => {
                let said = ask(quads.as_slice());
                println!(rt; "{text}: {said}")?;
            }
            None => println!(rt; "{text}: not an order")?,
        }
    }
    Ok(())
}

// The orders for a plan, of which a stabber is asked.
#[derive(Clone, Copy)]
struct Orders<'a> {
    rt: &'a HostRuntime,
    plan: &'a Plan,
}

impl<'a> Task for Orders<'a> {
    type Done = anyhow::Result<()>;

    fn over<S: Stabber + Drop>(self, mut stabber: S) -> anyhow::Result<()> {
        let ask = |path: &[Quad]| Said::from(stabber.lets_through(path));
        take_orders(self.rt, self.plan, ask)
    }

    fn over_sharp<S: Sharp + Drop>(self, mut stabber: S) -> anyhow::Result<()> {
        let ask = |path: &[Quad]| Said::from(stabber.stabbing_line(path));
        take_orders(self.rt, self.plan, ask)
    }
}

// Says what the plan's map has, and takes the orders.
fn serve(rt: &HostRuntime, plan: &Plan, pile: Pile) -> anyhow::Result<()> {
    let rooms = plan.room_count();
    let doorways = plan.doorway_count();
    println!(rt; "plan: {rooms} rooms, {doorways} doorways")?;
    pile.perform(Orders { rt, plan })
}

fn run(rt: &HostRuntime) -> anyhow::Result<()> {
    let mut words = env::args(rt)?.skip(1);
    let (Some(plan), Some(pile), None) = (words.next(), words.next(), words.next()) else {
        bail!("usage: exercise PLAN PILE");
    };
    let Ok(pile) = pile.as_str().parse::<Pile>() else {
        bail!(
            "usage: exercise PLAN PILE, with PILE exact, wedge, memory-exact, both-wedge-exact, .."
        );
    };
    let text = fs::read(rt, plan.as_str())?;
    match Plan::read(text.as_slice()) {
        Ok(plan) => serve(rt, &plan, pile),
        Err(fault) => {
            println!(rt; "refused {fault}")?;
            bail!("the plan is refused")
        }
    }
}

fn main(rt: HostRuntime) -> anyhow::Result<()> {
    run(&rt)
}
