//! The streams of a drill, against frames of a program in another language.

use drill_streams::drill_streams;
use std::test::Fail;

#[test]
fn a_seed_makes_the_frames_of_sensors(rt: HostRuntime) -> Result<(), Fail> {
    let streams = drill_streams(rt.alloc(), 0, 2)?;
    assert_eq!(rt;
        streams.sensors.as_slice(),
        b"$WND,1000,88,22117*47\n$POS,2000,37,-4,0*63\n".as_slice()
    );
    assert_eq!(rt; streams.operators.len(), 0);
    Ok(())
}

#[test]
fn each_hundredth_step_has_an_order(rt: HostRuntime) -> Result<(), Fail> {
    let streams = drill_streams(rt.alloc(), 7, 300)?;
    assert_eq!(rt;
        streams.operators.as_slice(),
        b"$THR,PORT,IN*50\n$THR,PORT,IN*50\n$THR,BOW1,OUT*6B\n".as_slice()
    );
    Ok(())
}

#[test]
fn the_greatest_seed_makes_a_drill(rt: HostRuntime) -> Result<(), Fail> {
    let streams = drill_streams(rt.alloc(), u32::MAX, 300)?;
    assert_eq!(rt;
        streams.operators.as_slice(),
        b"$THR,BOW2,OUT*68\n$THR,STBD,IN*48\n$THR,BOW2,IN*21\n".as_slice()
    );
    Ok(())
}
