// Tables as desks: over any stabber without witnesses, over a sharp one with them.
ghost use Rattle.std.specs.Prelude.{◌≡◌, true, false};
ghost use Rattle.visibility.specs.States.{world_of, state_of};

use crate::desk::Desk;
use crate::order::Order;
use crate::table::Table;
use maps::map::Map;
use stabbing::stabber::{Sharp, Stabber};

impl<M: Map, S: Stabber> Desk for Table<M, S> {
    ghost world = { λ t. world_of M.Map S.Stabber t };

    ghost state = { λ t. state_of t };

    ghost sharp = { λ _. false };

    fn serve(&mut self, order: &mut Order) {
        let answer = self.reply(order.call, order.bytes.as_mut_slice());
        order.answer = Some(answer);
    }
}

// A table whose stabber answers lines.
pub(crate) struct Lined<M, S> {
    pub table: Table<M, S>,
}

impl<M: Map, S: Sharp> Desk for Lined<M, S> {
    ghost world = { λ t. world_of M.Map S.Stabber t.table };

    ghost state = { λ t. state_of t.table };

    ghost sharp = { λ _. true };

    fn serve(&mut self, order: &mut Order) {
        let answer = self.table.reply_sharp(
            order.call,
            order.doorways.as_mut_slice(),
            order.bytes.as_mut_slice(),
        );
        order.answer = Some(answer);
    }
}
