//! What seats at the lock's table know. No value of these types is made.
use std::collections::LinkedList;

/// A pass that was joined: its number, and the entries that are its own.
pub struct Ended<E> {
    pub caller: u64,
    pub mine: LinkedList<E>,
}

/// How a seat stands.
pub enum Standing {
    /// A pass that has no ticket.
    Free,
    /// A pass with this ticket, whose turn it isn't yet. Tickets are counted without end here; the
    /// words of the table count modulo 2^64.
    Waiting(u64),
    /// A pass with this ticket, whose turn it is.
    Holding(u64),
    /// A copy of what a pass has seen, which is no pass.
    Copy,
    /// A seat that was joined.
    Spent,
}

/// What a seat knows of the list.
pub struct Known<E, B> {
    /// The number of the pass; that of the root is 0.
    pub caller: u64,
    pub base: B,
    /// A front of the one list.
    pub seen: LinkedList<E>,
    /// The entries of it that are the pass's own.
    pub mine: LinkedList<E>,
    /// The two lists of which the last join took the longer.
    pub first: LinkedList<E>,
    pub second: LinkedList<E>,
    /// Of the root: the number of the next pass, how many are away, and those that were joined.
    pub next: u64,
    pub away: u64,
    pub ended: LinkedList<Ended<E>>,
}

/// How a seat stands, and what it knows.
pub struct View<E, B> {
    pub standing: Standing,
    pub known: Known<E, B>,
}
