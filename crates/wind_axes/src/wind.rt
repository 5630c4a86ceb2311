//! What the wind does to the hull.
ghost use Rattle.std.specs.Prelude.{◌≡◌, ◌<◌, ◌≤◌};
ghost use Rattle.plant_model.specs.Demo.{demo_parts};
ghost use Rattle.wind_axes.specs.Wind.{coefficient_between, component_of, row_at, rows_from};
ghost use Rattle.wind_axes.specs.Wind.{wind_load};

use dp_num::floor_div;
use plant_model::controller::WindRow;
use plant_model::limits::{MOST_WIND_SPEED, WHOLE_TURN, WIND_ROWS};
use plant_model::wrench::Load;

/// The centidegrees from one row of a wind table to the next.
const ROW_SPACING: u32 = WHOLE_TURN / WIND_ROWS as u32;

/// The force and the moment of the wind.
///
/// `speed` is in dm/s, at most `MOST_WIND_SPEED`. `angle` says where the wind comes from, in
/// centidegrees from the bow towards starboard, below a whole turn. Each coefficient is on the line
/// between those of the two rows beside the angle, where the first row follows the last. It is rounded
/// down, and its product with the square of the speed, in millionths, is rounded down again.
pub fn wind_force(table: &[WindRow; WIND_ROWS], speed: u32, angle: u32) -> Load
    requires speed { speed ≤ MOST_WIND_SPEED }
    requires angle { angle < WHOLE_TURN }
    ensures { result ≡ wind_load table.now speed angle }
{
    let tens = (angle / ROW_SPACING) as usize;
    let rest = angle % ROW_SPACING;
    let here = row(table, tens);
    let next = row(table, tens + 1);
    Load {
        x: component(here.x, next.x, rest, speed),
        y: component(here.y, next.y, rest, speed),
        n: component(here.n, next.n, rest, speed),
    }
}

/// The row at so many tens of degrees, of which the last is followed by the first.
fn row(table: &[WindRow; WIND_ROWS], tens: usize) -> WindRow
    ensures { result ≡ row_at table.now tens }
{
    table[tens % WIND_ROWS]
}

/// What the coefficient gives that lies `rest` centidegrees after one row's, towards the next row's.
fn component(here: i32, next: i32, rest: u32, speed: u32) -> i64
    requires rest { rest < ROW_SPACING }
    requires speed { speed ≤ MOST_WIND_SPEED }
    ensures { result ≡ component_of (coefficient_between here next rest) speed }
{
    let sum = here as i128 * (ROW_SPACING - rest) as i128 + next as i128 * rest as i128;
    let coefficient = floor_div(sum, ROW_SPACING as i128);
    floor_div(coefficient * (speed * speed) as i128, 1_000_000) as i64
}

/// The law of the built-in plant's wind table: at every ten degrees it has minus a quarter of the cosine and minus half
/// of the sine, rounded down, and no moment. Calling it does nothing.
pub fn demo_wind_is_of_sines()
    ensures { demo_parts.wind ≡ rows_from 36 0 }
{}
