//! Bodies of frames, read as telegrams and written again.

use frame::Body;
use std::test::Fail;
use telegram::{Reject, read, write};

/// Every telegram, with the ends of its ranges somewhere.
const BODIES: [&str; 16] = [
    "POS,0,-10000000,10000000,35999",
    "POS,4294967295,0,-1,0",
    "WND,1,1000,35999",
    "SET,10000000,-10000000,0",
    "THR,BOW1,IN",
    "THR,BOW1,OUT",
    "GEN,G-2,RUN",
    "GEN,G-2,STOP",
    "TIE,ABCDEFGHIJKL,CLOSE",
    "TIE,_,OPEN",
    "MOD,AUTO",
    "MOD,MANUAL",
    "MAN,-24000,24000,-76800000",
    "ACK,4294967295",
    "BAR,PORT,15,BAR",
    "BRD",
];

#[test]
fn reads_and_writes_all_telegrams(rt: HostRuntime) -> Result<(), Fail> {
    for text in BODIES {
        let body = Body::of(text.as_bytes()).ok_or("no body")?;
        let telegram = read(&body).ok().ok_or("no telegram")?;
        assert_eq!(rt; write(&telegram).as_str(), text);
    }
    Ok(())
}

#[test]
fn refuses_by_the_first_fault(rt: HostRuntime) -> Result<(), Fail> {
    let cases = [
        ("XYZ", Reject::Kind),
        ("pos,1,2,3,4", Reject::Kind),
        ("POS,1,2", Reject::Count),
        ("BRD,", Reject::Count),
        ("BAR,PORT,x", Reject::Count),
        ("POS,+1,2,3,4", Reject::Number),
        ("POS,01,2,3,4", Reject::Number),
        ("POS,1,-0,3,4", Reject::Number),
        ("POS,1,,3,4", Reject::Number),
        ("POS,4294967296,x,3,4", Reject::Range),
        ("POS,99999999999999999999999999,0,3,4", Reject::Range),
        ("POS,-1,0,3,4", Reject::Range),
        ("WND,1,1001,0", Reject::Range),
        ("SET,0,0,36000", Reject::Range),
        ("MAN,0,24001,0", Reject::Range),
        ("ACK,0", Reject::Range),
        ("BAR,PORT,16,BAR", Reject::Range),
        ("BAR,PO RT,16,BAR", Reject::Word),
        ("MOD,auto", Reject::Word),
        ("TIE,T1,IN", Reject::Word),
        ("GEN,ABCDEFGHIJKLM,RUN", Reject::Word),
    ];
    for (text, refusal) in cases {
        let body = Body::of(text.as_bytes()).ok_or("no body")?;
        assert_eq!(rt; read(&body).err(), Some(refusal), "{text}");
    }
    Ok(())
}
