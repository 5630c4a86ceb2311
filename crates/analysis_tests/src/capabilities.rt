//! Reserves and wind limits of the built-in plant.
ghost use Rattle.plant_model.specs.Versions.{IsDemand};
ghost use Rattle.plant_model.specs.declared.limits.TheConstants.{WHOLE_TURN};

use capability::{Margin, Next, Step, WindLimit, reserve, wind_limit};
use dp_num::Fraction;
use example_plants::built_in;
use plant_model::limits::{MOST_FORCE, MOST_MOMENT, WHOLE_TURN};
use plant_model::status::Loss;
use plant_model::wrench::Wrench;

fn asked(x: i32, y: i32, n: i32) -> Wrench
    ensures { IsDemand result }
{
    Wrench {
        x: x.clamp(-MOST_FORCE, MOST_FORCE),
        y: y.clamp(-MOST_FORCE, MOST_FORCE),
        n: n.clamp(-MOST_MOMENT, MOST_MOMENT),
    }
}

/// What the built-in plant leaves of the demand: with nothing lost, and after the loss of each group.
fn reserves_of(demand: Wrench) -> [Margin; 3]
    requires { IsDemand demand }
{
    let plant = built_in();
    let status = plant.opening();
    [
        reserve(&plant, status, Loss::Intact, demand),
        reserve(&plant, status, Loss::Group(0), demand),
        reserve(&plant, status, Loss::Group(1), demand),
    ]
}

fn limit_of(base: Wrench, angle: u32) -> WindLimit
    requires { IsDemand base }
{
    let plant = built_in();
    wind_limit(&plant, plant.opening(), base, angle % WHOLE_TURN)
}

/// Whether the first group's loss ends it.
fn ends_by_the_first(limit: &WindLimit) -> bool {
    match &limit.next {
        Some(
            Next {
                loss: Loss::Group(0),
                step: Step::Lost(_),
            },
        ) => true,
        _ => false,
    }
}

#[test]
fn reserves_of_a_demand(rt: HostRuntime) {
    let demand = asked(0, 380, 0);
    let whole = Fraction { top: 1, bottom: 1 };
    let more = Fraction {
        top: 216,
        bottom: 95,
    };
    let some = Fraction {
        top: 20,
        bottom: 19,
    };
    assert_eq!(rt;
        reserves_of(demand),
        [
            Margin::Least(more),
            Margin::Least(whole),
            Margin::Least(some)
        ]
    );
    assert_eq!(rt; reserves_of(asked(0, 0, 0)), [Margin::Any; 3]);
}

#[test]
fn the_first_group_ends_the_wind(rt: HostRuntime) {
    let ahead = limit_of(asked(0, 0, 0), 0);
    assert_eq!(rt; ahead.speed, Some(375));
    assert_eq!(rt; ahead.at.len(), 3);
    assert!(rt; ends_by_the_first(&ahead));
    let abeam = limit_of(asked(0, 0, 0), 9_000);
    assert_eq!(rt; abeam.speed, Some(275));
    assert!(rt; ends_by_the_first(&abeam));
}

#[test]
fn a_demand_past_the_border_leaves_no_wind(rt: HostRuntime) {
    let limit = limit_of(asked(0, 381, 0), 1_000);
    assert_eq!(rt; limit.speed, None);
    assert!(rt; limit.at.is_empty());
    assert!(rt; ends_by_the_first(&limit));
}
