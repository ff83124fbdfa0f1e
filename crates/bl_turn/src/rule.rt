//! The rule of the lock's table, and what its steps tell.
use crate::told::Told;
use crate::view::{Account, Slot};
use atomic_table::{Join, Play, Seat, Split, Table, TableRule};
use std::alloc::Global;
use std::marker::PhantomData;
use std::snapshot::Snapshot;

/// The rule, for a lock that was made round the value of the key.
pub struct TurnRule<V> {
    of: PhantomData<V>,
}

impl<V: Told> TableRule<Slot<V>, Account<V::Entry, V::Base>, Snapshot<V>> for TurnRule<V> {
    ghost use Rattle.bl_turn.specs.Accounts.{first_account};
    ghost use Rattle.bl_turn.specs.Rule.{Kept};

    ghost holds = { λ key. Kept V.by V.told V.base key.value };

    ghost first = { λ key. first_account V.by (V.told key.value) (V.base key.value) };
}

pub type Board<V: Told> = Table<
    Slot<V>,
    Account<V::Entry, V::Base>,
    Snapshot<V>,
    TurnRule<V>,
    Global,
>;

pub type Place<V: Told> = Seat<Slot<V>, Account<V::Entry, V::Base>>;

pub(crate) struct Enter<V> {
    of: PhantomData<V>,
}

impl<V: Told> Play<Slot<V>, Account<V::Entry, V::Base>> for Enter<V> {
    ghost use Rattle.bl_turn.specs.Plays.{Enters};

    ghost then = { Enters V.by V.told V.base };
}

pub(crate) struct Show<V> {
    of: PhantomData<V>,
}

impl<V: Told> Play<Slot<V>, Account<V::Entry, V::Base>> for Show<V> {
    ghost use Rattle.bl_turn.specs.Plays.{Shows};

    ghost then = { Shows V.by V.told V.base };
}

pub(crate) struct Look<V> {
    of: PhantomData<V>,
}

impl<V: Told> Play<Slot<V>, Account<V::Entry, V::Base>> for Look<V> {
    ghost use Rattle.bl_turn.specs.Plays.{Looks};

    ghost then = { Looks V.by V.told V.base };
}

pub(crate) struct Leave<V> {
    of: PhantomData<V>,
}

impl<V: Told> Play<Slot<V>, Account<V::Entry, V::Base>> for Leave<V> {
    ghost use Rattle.bl_turn.specs.Plays.{Leaves};

    ghost then = { Leaves };
}

// Seat 0 gives a new seat.
pub(crate) struct Give<V> {
    of: PhantomData<V>,
}

impl<V: Told> Split<Account<V::Entry, V::Base>> for Give<V> {
    ghost use Rattle.bl_turn.specs.Accounts.{after_split, new_account};

    ghost left = { after_split };

    ghost right = { new_account V.by };
}

// Seat 0 takes in another.
pub(crate) struct Meet<V> {
    of: PhantomData<V>,
}

impl<V: Told> Join<Account<V::Entry, V::Base>> for Meet<V> {
    ghost use Rattle.bl_turn.specs.Accounts.{after_join, spent_account};

    ghost both = { after_join };

    ghost spent = { spent_account };
}
