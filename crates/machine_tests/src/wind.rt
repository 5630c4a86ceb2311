//! Sines, turned axes, and the wind of the demo plant.

use plant_model::demo::wind::WIND;
use plant_model::wrench::Load;
use wind_axes::{cosine, rotate, sine, wind_force};

const QUARTER_OF_SINES: [i32; 10] = [0, 1752, 3431, 5000, 6418, 7647, 8648, 9390, 9846, 10_000];

fn table_sine(tens: usize) -> i32 {
    let within = tens % 18;
    let found = QUARTER_OF_SINES[if within <= 9 { within } else { 18 - within }];
    if tens < 18 { found } else { -found }
}

#[test]
fn sines_at_tens_of_degrees(rt: HostRuntime) {
    for tens in 0..36 {
        assert_eq!(rt; sine(1000 * tens as u32), table_sine(tens));
        assert_eq!(rt; cosine(1000 * tens as u32), table_sine((tens + 9) % 36));
    }
}

#[test]
fn a_point_to_the_north_of_a_vessel_that_heads_east(rt: HostRuntime) {
    assert_eq!(rt; rotate(100, 0, 9000), (0, -100));
    assert_eq!(rt; rotate(0, 100, 9000), (100, 0));
    assert_eq!(rt; rotate(100, 100, 3000), (136, 36));
}

#[test]
fn wind_of_the_demo(rt: HostRuntime) {
    assert_eq!(rt; wind_force(&WIND, 120, 9000), Load { x: 0, y: -72, n: 0 });
    assert_eq!(rt;
        wind_force(&WIND, 120, 4500),
        Load {
            x: -26,
            y: -51,
            n: 0
        }
    );
    assert_eq!(rt;
        wind_force(&WIND, 1000, 35_500),
        Load {
            x: -2481,
            y: 438,
            n: 0
        }
    );
}
