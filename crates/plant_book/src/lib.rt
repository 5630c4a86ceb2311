//! The plant's machine shared by several callers. Their answered calls stand in one legal history,
//! each caller's once in its order.
#![tactic(auto)]

mod base;
mod board;
mod book;
mod pass;
mod served;
mod value;

pub use base::BookBase;
pub use board::{BoardBase, PlantBoard};
pub use book::Book;
pub use pass::{BookPass, MOST_DISPLAYS};
pub use served::Served;
