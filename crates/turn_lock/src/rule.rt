//! The rule of the lock's table, and what each kind of step tells.
use crate::grown::Grown;
use crate::view::View;
use atomic_table::{Join, Play, Split, TableRule};
use std::snapshot::Snapshot;

/// The rule, which is told the first value when the table is made.
pub struct Turns;

impl<V: Grown> TableRule<Option<V>, View<V::Entry, V::Base>, Snapshot<V>> for Turns {
    ghost use Rattle.turn_lock.specs.Turns.{first_view, IsOrderly};

    ghost holds = { λ _. IsOrderly V.entries V.base };

    ghost first = { λ key. first_view (V.base key.value) };
}

/// A ticket is drawn.
pub(crate) struct Draw;

impl<V: Grown> Play<Option<V>, View<V::Entry, V::Base>> for Draw {
    ghost use Rattle.turn_lock.specs.Steps.{Draws};

    ghost then = { Draws };
}

/// The ticket that is served is looked at.
pub(crate) struct Look;

impl<V: Grown> Play<Option<V>, View<V::Entry, V::Base>> for Look {
    ghost use Rattle.turn_lock.specs.Steps.{Looks};

    ghost then = { Looks V.entries V.base };
}

/// The entries are counted.
pub(crate) struct Count;

impl<V: Grown> Play<Option<V>, View<V::Entry, V::Base>> for Count {
    ghost use Rattle.turn_lock.specs.Steps.{Counts};

    ghost then = { Counts V.entries };
}

/// The next ticket is served.
pub(crate) struct Serve;

impl<V: Grown> Play<Option<V>, View<V::Entry, V::Base>> for Serve {
    ghost use Rattle.turn_lock.specs.Steps.{Serves};

    ghost then = { Serves };
}

/// A seat is joined to another.
pub(crate) struct Settle;

impl<V: Grown> Play<Option<V>, View<V::Entry, V::Base>> for Settle {
    ghost use Rattle.turn_lock.specs.Steps.{Settles};

    ghost then = { Settles };
}

/// Weight goes into the bank.
pub(crate) struct Lend;

impl<V: Grown> Play<Option<V>, View<V::Entry, V::Base>> for Lend {
    ghost use Rattle.turn_lock.specs.Steps.{Lends};

    ghost then = { Lends };
}

/// Weight comes out of the bank.
pub(crate) struct Fetch;

impl<V: Grown> Play<Option<V>, View<V::Entry, V::Base>> for Fetch {
    ghost use Rattle.turn_lock.specs.Steps.{Fetches};

    ghost then = { Fetches };
}

/// Seats are split off and joined.
pub(crate) struct Guests;

impl<E, B> Split<View<E, B>> for Guests {
    ghost use Rattle.turn_lock.specs.Turns.{split_view};

    ghost left = { λ v. v };

    ghost right = { split_view };
}

impl<E, B> Join<View<E, B>> for Guests {
    ghost use Rattle.turn_lock.specs.Turns.{joined_view, spent_view};

    ghost both = { joined_view };

    ghost spent = { spent_view };
}
