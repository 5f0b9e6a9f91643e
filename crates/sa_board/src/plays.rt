ghost use Rattle.sa_board.specs.View.{first_view};
ghost use Rattle.sa_board.specs.Rule.{IsKept};
ghost use Rattle.sa_board.specs.Steps.{taken, given_back, founder_left, founder_right, joined, nobody};

use crate::view::View;
use atomic_table::{Join, Play, Split, TableRule};
use sa_desk::Desk;
use std::marker::{Brand, PhantomData};
use std::snapshot::Snapshot;

/// The rule of a board's table, by the desks with which it was founded.
pub struct Order;

impl TableRule<Option<Desk>, View, Snapshot<Vec<Desk>>> for Order {
    ghost holds = { λ founded. IsKept founded.value.items };

    ghost first = { λ founded. first_view founded.value.items };
}

/// A try to take a desk.
pub struct Take;

impl Play<Option<Desk>, View> for Take {
    ghost then = { taken };
}

/// What a call has left of a desk. Each call of a program picks it.
pub trait Left {
    ghost use Rattle.sa_desk.specs.Contents.{Contents};

    ghost left: { Contents };
}

impl Left for Brand {
    ghost use Rattle.sa_desk.specs.New.{no_desk};

    ghost left = { no_desk };
}

/// The entries of a call are counted.
pub struct Raise<C: Left> {
    of: PhantomData<C>,
}

impl<C: Left> Play<Option<Desk>, View> for Raise<C> {
    ghost use Rattle.sa_board.specs.Steps.{lifted};

    ghost then = { lifted C.left };
}

/// A desk is let go.
pub struct Release;

impl Play<Option<Desk>, View> for Release {
    ghost then = { given_back };
}

/// A session gets its number and its seat.
pub struct Born;

impl Split<View> for Born {
    ghost left = { founder_left };

    ghost right = { founder_right };
}

/// A session ends in another's seat.
pub struct Ended;

impl Join<View> for Ended {
    ghost both = { joined };

    ghost spent = { nobody };
}
