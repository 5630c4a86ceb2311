ghost use Rattle.std.specs.Prelude.{IfOk};
ghost use Rattle.sensor_vote.specs.References.{IsReference};

use frame::Body;
use sensor_vote::{
    Reference, Vote, Voted, one_bad_reference_moves_nothing_outside, read_reference,
};
use std::test::Fail;
use telegram::Reject;

/// The reference that a body says.
fn said(text: &str) -> Result<Reference, Fail>
    ensures { IfOk result IsReference }
{
    let Some(body) = Body::of(text.as_bytes()) else {
        return Err(Fail::new("no body"));
    };
    match read_reference(&body) {
        Some(Ok(reference)) => Ok(reference),
        _ => Err(Fail::new("no reference")),
    }
}

/// What is answered to the last of three references.
fn answer(texts: [&str; 3]) -> Result<Voted, Fail> {
    let [first, second, third] = texts;
    let mut vote = Vote::new();
    vote.take(said(first)?);
    vote.take(said(second)?);
    Ok(vote.take(said(third)?))
}

#[test]
fn reads_references(rt: HostRuntime) -> Result<(), Fail> {
    let drifting = Reference {
        moment: 1000,
        number: 2,
        x: 104,
        y: -3,
        heading: 35_990,
    };
    let cases = [
        ("TIE,T1,CLOSE", None),
        ("ref,1,1,0,0,0", None),
        ("REF", Some(Err(Reject::Count))),
        ("REF,1,1,0,0", Some(Err(Reject::Count))),
        ("REF,1,1,0,0,0,0", Some(Err(Reject::Count))),
        ("REF,1,4,0,0,0", Some(Err(Reject::Range))),
        ("REF,1,0,0,0,0", Some(Err(Reject::Range))),
        ("REF,1,1,0,0,36000", Some(Err(Reject::Range))),
        ("REF,x,4,0,0,0", Some(Err(Reject::Number))),
        ("REF,1000,2,104,-3,35990", Some(Ok(drifting))),
    ];
    for (text, want) in cases {
        let body = Body::of(text.as_bytes()).ok_or("no body")?;
        assert_eq!(rt; read_reference(&body), want, "{text}");
    }
    Ok(())
}

#[test]
fn takes_the_middle_and_marks_the_far(rt: HostRuntime) -> Result<(), Fail> {
    let texts = [
        "REF,1000,1,100,0,0",
        "REF,1000,2,104,-3,35990",
        "REF,1000,3,9000,2,10",
    ];
    let want = Voted::Round {
        moment: 1000,
        x: 104,
        y: 0,
        heading: 0,
        bad: [false, false, true],
    };
    assert_eq!(rt; answer(texts)?, want);
    Ok(())
}

#[test]
fn marks_from_beyond_five_metres_and_three_degrees(rt: HostRuntime) -> Result<(), Fail> {
    let texts = [
        "REF,1000,1,500,0,0",
        "REF,1000,2,0,-501,300",
        "REF,1000,3,0,0,601",
    ];
    let want = Voted::Round {
        moment: 1000,
        x: 0,
        y: 0,
        heading: 300,
        bad: [false, true, true],
    };
    assert_eq!(rt; answer(texts)?, want);
    Ok(())
}

#[test]
fn waits_and_refuses(rt: HostRuntime) -> Result<(), Fail> {
    let mut vote = Vote::default();
    assert_eq!(rt; vote.take(said("REF,1000,1,0,0,0")?), Voted::Waiting);
    assert_eq!(rt; vote.take(said("REF,1000,1,0,0,0")?), Voted::Twice);
    assert_eq!(rt;
        vote.take(said("REF,500,2,0,0,0")?),
        Voted::Late { last: 1000 }
    );
    assert!(rt; vote.unfinished());
    Ok(())
}

#[test]
fn a_later_moment_ends_a_round(rt: HostRuntime) -> Result<(), Fail> {
    let mut vote = Vote::new();
    vote.take(said("REF,1000,1,0,0,0")?);
    vote.take(said("REF,1000,2,0,0,0")?);
    assert!(rt; vote.ends_unfinished(1001));
    assert!(rt; !vote.ends_unfinished(1000));
    vote.take(said("REF,1000,3,0,0,0")?);
    assert!(rt; !vote.ends_unfinished(1001));
    assert_eq!(rt;
        vote.take(said("REF,1000,3,0,0,0")?),
        Voted::Late { last: 1000 }
    );
    one_bad_reference_moves_nothing_outside();
    Ok(())
}
