//! Tests of the plant that several callers share, by public calls. It has no other code.
#![tactic(auto)]

#[cfg(test)]
mod demo_book;
#[cfg(test)]
mod displays;
#[cfg(test)]
mod one_thread;
#[cfg(test)]
mod two_threads;
