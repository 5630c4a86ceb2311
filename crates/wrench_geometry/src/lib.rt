//! What the thrusters do to the vessel together: forces with their moments as vectors in space, and
//! how far the sums of several lists of vectors reach. Nothing here overflows, and nothing takes
//! memory.
#![tactic(auto)]

mod chosen;
mod counting;
mod cut;
mod fans;
mod lever;
mod reach;
mod steps;
mod sums;
mod vector;
mod vertices;

pub use chosen::sums_of;
pub use counting::{MOST_DIFFERENCES, MOST_DIRECTIONS, directions};
pub use cut::{CUT_PARTS_BELOW, Cut};
pub use fans::{fan, pieces_are_fans};
pub use lever::{MOST_TURN, image};
pub use reach::{greatest, support, support_counted};
pub use steps::Steps;
pub use sums::{Images, Sums};
pub use vector::{MOST_FACTOR, MOST_PLAIN, Vec3, cross, difference, dot, opposite, sum};
pub use vertices::{
    MOST_DETERMINANT, SHORT_FORCE, SHORT_MOMENT, Vertex, determinant, farthest, product,
};
