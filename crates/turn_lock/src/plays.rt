//! The rule of the lock's table, and what each kind of step tells the seat that makes it.
use crate::keeps::Keeps;
use crate::view::View;
use atomic_table::{Join, Play, Seat, Split, Table, TableRule};
use std::alloc::Global;
use std::marker::PhantomData;
use std::snapshot::Snapshot;

/// The rule: between any two steps there is one list.
pub struct Turns;

impl<K: Keeps> TableRule<Option<K>, View<K::Entry, K::Base>, Snapshot<K>> for Turns {
    ghost use Rattle.turn_lock.specs.Rule.{IsKept};
    ghost use Rattle.turn_lock.specs.Views.{root_view};

    ghost holds = { λ _. IsKept K.entries K.base_of K.caller_of };

    ghost first = { λ key. root_view (K.base_of key.value) };
}

pub(crate) type Place<K> = Seat<Option<K>, View<<K as Keeps>::Entry, <K as Keeps>::Base>>;

pub(crate) type Desk<K> = Table<
    Option<K>,
    View<<K as Keeps>::Entry, <K as Keeps>::Base>,
    Snapshot<K>,
    Turns,
    Global,
>;

/// A caller draws a ticket.
pub(crate) struct Draw;

impl<K: Keeps> Play<Option<K>, View<K::Entry, K::Base>> for Draw {
    ghost use Rattle.turn_lock.specs.Steps.{Draws};

    ghost then = { Draws K.entries K.base_of K.caller_of };
}

/// A caller with a ticket looks whether it is its turn.
pub(crate) struct Look;

impl<K: Keeps> Play<Option<K>, View<K::Entry, K::Base>> for Look {
    ghost use Rattle.turn_lock.specs.Steps.{Looks};

    ghost then = { Looks K.entries K.base_of K.caller_of };
}

/// A caller's turn is served, with an entry.
pub(crate) struct ServeEntry;

impl<K: Keeps> Play<Option<K>, View<K::Entry, K::Base>> for ServeEntry {
    ghost use Rattle.turn_lock.specs.Steps.{ServesEntry};

    ghost then = { ServesEntry K.entries K.base_of K.caller_of };
}

/// A caller's turn is served, without an entry.
pub(crate) struct Serve;

impl<K: Keeps> Play<Option<K>, View<K::Entry, K::Base>> for Serve {
    ghost use Rattle.turn_lock.specs.Steps.{Serves};

    ghost then = { Serves K.entries K.base_of K.caller_of };
}

/// After a join a pass looks, and learns that it has seen both lists.
pub(crate) struct Compare;

impl<K: Keeps> Play<Option<K>, View<K::Entry, K::Base>> for Compare {
    ghost use Rattle.turn_lock.specs.Steps.{Compares};

    ghost then = { Compares K.entries K.base_of K.caller_of };
}

/// The root gives a number to a new pass.
pub(crate) struct GiveNumber;

impl<E, B> Split<View<E, B>> for GiveNumber {
    ghost use Rattle.turn_lock.specs.Steps.{split_root, new_pass};

    ghost left = { split_root };

    ghost right = { new_pass };
}

/// A copy is made of what a pass has seen.
pub(crate) struct Tell;

impl<E, B> Split<View<E, B>> for Tell {
    ghost use Rattle.turn_lock.specs.Steps.{copied};

    ghost left = { λ v. v };

    ghost right = { copied };
}

/// The root takes a pass back.
pub(crate) struct TakeBack<K> {
    of: PhantomData<K>,
}

impl<K: Keeps> Join<View<K::Entry, K::Base>> for TakeBack<K> {
    ghost use Rattle.turn_lock.specs.Steps.{joined, spent};

    ghost both = { joined };

    ghost spent = { spent K.any_base };
}

/// A pass learns what a copy tells.
pub(crate) struct Learn<K> {
    of: PhantomData<K>,
}

impl<K: Keeps> Join<View<K::Entry, K::Base>> for Learn<K> {
    ghost use Rattle.turn_lock.specs.Steps.{met, spent};

    ghost both = { met };

    ghost spent = { spent K.any_base };
}
