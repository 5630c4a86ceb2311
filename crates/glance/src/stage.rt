//! A list that was published.
use std::collections::LinkedList;

/// A list that was published, with its base. No value of it is made.
pub struct Stage<E, B> {
    pub base: B,
    pub list: LinkedList<E>,
}
