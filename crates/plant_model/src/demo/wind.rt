//! The wind table of the built-in plant.

use crate::controller::WindRow;
use crate::limits::WIND_ROWS;

/// At every ten degrees from the bow towards starboard: minus a quarter of the cosine and minus half of the
/// sine, both in ten-thousandths and rounded down, and no moment.
pub const WIND: [WindRow; WIND_ROWS] = [
    WindRow {
        x: -2500,
        y: 0,
        n: 0,
    },
    WindRow {
        x: -2462,
        y: -876,
        n: 0,
    },
    WindRow {
        x: -2348,
        y: -1716,
        n: 0,
    },
    WindRow {
        x: -2162,
        y: -2500,
        n: 0,
    },
    WindRow {
        x: -1912,
        y: -3209,
        n: 0,
    },
    WindRow {
        x: -1605,
        y: -3824,
        n: 0,
    },
    WindRow {
        x: -1250,
        y: -4324,
        n: 0,
    },
    WindRow {
        x: -858,
        y: -4695,
        n: 0,
    },
    WindRow {
        x: -438,
        y: -4923,
        n: 0,
    },
    WindRow {
        x: 0,
        y: -5000,
        n: 0,
    },
    WindRow {
        x: 438,
        y: -4923,
        n: 0,
    },
    WindRow {
        x: 857,
        y: -4695,
        n: 0,
    },
    WindRow {
        x: 1250,
        y: -4324,
        n: 0,
    },
    WindRow {
        x: 1604,
        y: -3824,
        n: 0,
    },
    WindRow {
        x: 1911,
        y: -3209,
        n: 0,
    },
    WindRow {
        x: 2162,
        y: -2500,
        n: 0,
    },
    WindRow {
        x: 2347,
        y: -1716,
        n: 0,
    },
    WindRow {
        x: 2461,
        y: -876,
        n: 0,
    },
    WindRow {
        x: 2500,
        y: 0,
        n: 0,
    },
    WindRow {
        x: 2461,
        y: 876,
        n: 0,
    },
    WindRow {
        x: 2347,
        y: 1715,
        n: 0,
    },
    WindRow {
        x: 2162,
        y: 2500,
        n: 0,
    },
    WindRow {
        x: 1911,
        y: 3209,
        n: 0,
    },
    WindRow {
        x: 1604,
        y: 3823,
        n: 0,
    },
    WindRow {
        x: 1250,
        y: 4324,
        n: 0,
    },
    WindRow {
        x: 857,
        y: 4695,
        n: 0,
    },
    WindRow {
        x: 438,
        y: 4923,
        n: 0,
    },
    WindRow {
        x: 0,
        y: 5000,
        n: 0,
    },
    WindRow {
        x: -438,
        y: 4923,
        n: 0,
    },
    WindRow {
        x: -858,
        y: 4695,
        n: 0,
    },
    WindRow {
        x: -1250,
        y: 4324,
        n: 0,
    },
    WindRow {
        x: -1605,
        y: 3823,
        n: 0,
    },
    WindRow {
        x: -1912,
        y: 3209,
        n: 0,
    },
    WindRow {
        x: -2162,
        y: 2500,
        n: 0,
    },
    WindRow {
        x: -2348,
        y: 1715,
        n: 0,
    },
    WindRow {
        x: -2462,
        y: 876,
        n: 0,
    },
];
