//! Lines of a stream, read and written.

use frame::{
    Body, Damage, Framer, Item, MOST_BODY_BYTES, MOST_FRAME_TEXT_BYTES, frames_are_exact,
    write_frame, written_frames_are_read,
};
use std::alloc::{AllocError, Global};
use std::test::Fail;

/// The stream's items, as `Debug` writes them.
fn items_of(alloc: Global, stream: &[u8]) -> Result<String, AllocError> {
    let mut framer = Framer::default();
    let mut items = Vec::new(alloc);
    for byte in stream {
        if let Some(item) = framer.feed(*byte) {
            items.push(item)?;
        }
    }
    if let Some(item) = framer.finish() {
        items.push(item)?;
    }
    format!(in alloc; "{items:?}")
}

#[test]
fn reads_lines(rt: HostRuntime) -> Result<(), Fail> {
    let cases: [(&[u8], &str); 21] = [
        (b"$TIE,T1,CLOSE*6B\n", r#"[Body("TIE,T1,CLOSE")]"#),
        (b"$TIE,T1,CLOSE*6b\r\n", r#"[Body("TIE,T1,CLOSE")]"#),
        (b"$TIE,T1,CLOSE*6A\n", "[Damaged(Checksum)]"),
        (b"$TIE,T1,CLOSE*7B\n", "[Damaged(Checksum)]"),
        (
            b"$TIE,T1,OPEN*29\n\n\r\n$XYZ*5B\n",
            r#"[Body("TIE,T1,OPEN"), Body("XYZ")]"#,
        ),
        (b"", "[]"),
        (b"$BRD*54", "[Damaged(Cut)]"),
        (b"$BRD*54\n$", r#"[Body("BRD"), Damaged(Cut)]"#),
        (b"\r", "[Damaged(Cut)]"),
        (b"$BRD*54\r\r\n", "[Damaged(Shape)]"),
        (b"\r\r\n", "[Damaged(Shape)]"),
        (b"BRD*54\n", "[Damaged(Shape)]"),
        (b"$*00\n", "[Damaged(Shape)]"),
        (b"$A$B*27\n", "[Damaged(Shape)]"),
        (b"$A*B*29\n", "[Damaged(Shape)]"),
        (b"$A\tB*0A\n", "[Damaged(Shape)]"),
        (b"$A*4\n", "[Damaged(Shape)]"),
        (b"$A*4g\n", "[Damaged(Shape)]"),
        (b"$A*041\n", "[Damaged(Shape)]"),
        (b"$A*G1\n", "[Damaged(Shape)]"),
        (b"$A*41\n", r#"[Body("A")]"#),
    ];
    for (stream, want) in cases {
        let items = items_of(rt.alloc(), stream)?;
        assert_eq!(rt; items.as_str(), want, "at {stream:?}");
    }
    Ok(())
}

/// The item of a line of `$`, so many `A`, and an end. The exclusive or of an even number of `A` is
/// 00.
fn item_of_long(count: usize, end: &[u8]) -> Option<Item> {
    let mut framer = Framer::new();
    framer.feed(b'$');
    for _ in 0..count {
        framer.feed(b'A');
    }
    for byte in end {
        framer.feed(*byte);
    }
    framer.feed(b'\n')
}

#[test]
fn reads_long_lines(rt: HostRuntime) -> Result<(), Fail> {
    let longest = Body::of(&[b'A'; 120]).ok_or("120 bytes are a body")?;
    assert_eq!(rt; Body::of(&[b'A'; 121]), None);
    assert_eq!(rt; item_of_long(120, b"*00\r"), Some(Item::Body(longest)));
    let damaged: [(usize, &[u8], Damage); 9] = [
        (119, b"*00", Damage::Checksum),
        (120, b"*41", Damage::Checksum),
        (123, b"", Damage::Shape),
        (123, b"\r", Damage::Shape),
        (124, b"", Damage::TooLong),
        (121, b"*41\r", Damage::TooLong),
        (120, b"*00\rx", Damage::TooLong),
        (120, b"*00\r\r", Damage::TooLong),
        (200, b"*00\r", Damage::TooLong),
    ];
    for (count, end, damage) in damaged {
        assert_eq!(rt;
            item_of_long(count, end),
            Some(Item::Damaged(damage)),
            "at {count}"
        );
    }
    Ok(())
}

#[test]
fn writes_frames_that_are_read(rt: HostRuntime) -> Result<(), Fail> {
    let cases: [(&[u8], &[u8]); 4] = [
        (b"TIE,T1,CLOSE", b"$TIE,T1,CLOSE*6B\n"),
        (b"A", b"$A*41\n"),
        (b"AA", b"$AA*00\n"),
        (b"/", b"$/*2F\n"),
    ];
    for (bytes, want) in cases {
        let body = Body::of(bytes).ok_or("a body")?;
        let text = write_frame(&body);
        assert_eq!(rt; text.as_slice(), want);
        let read = items_of(rt.alloc(), text.as_slice())?;
        let body_alone = format!(in rt.alloc(); "[Body({body:?})]")?;
        assert_eq!(rt; read.as_str(), body_alone.as_str());
    }
    let longest = Body::of(&[b'~'; MOST_BODY_BYTES]).ok_or("a body")?;
    assert_eq!(rt; write_frame(&longest).len(), MOST_FRAME_TEXT_BYTES);
    written_frames_are_read();
    Ok(())
}

#[test]
fn begins_anew_after_the_end(rt: HostRuntime) -> Result<(), Fail> {
    let mut framer = Framer::new();
    assert_eq!(rt; framer.feed(b'$'), None);
    assert_eq!(rt; framer.finish(), Some(Item::Damaged(Damage::Cut)));
    assert_eq!(rt; framer.finish(), None);
    for byte in b"$XYZ*5B" {
        assert_eq!(rt; framer.feed(*byte), None);
    }
    let body = Body::of(b"XYZ").ok_or("a body")?;
    assert_eq!(rt; body.as_str(), "XYZ");
    assert_eq!(rt; body.bytes(), b"XYZ".as_slice());
    assert_eq!(rt; framer.feed(b'\n'), Some(Item::Body(body)));
    for _ in 0..200 {
        assert_eq!(rt; framer.feed(b'$'), None);
    }
    assert_eq!(rt; framer.finish(), Some(Item::Damaged(Damage::Cut)));
    Ok(())
}

#[test]
fn numbers_damages(rt: HostRuntime) -> Result<(), Fail> {
    let damages = [
        Damage::Shape,
        Damage::TooLong,
        Damage::Checksum,
        Damage::Cut,
    ];
    assert_eq!(rt; damages.map(|damage| damage.number()), [1, 2, 3, 4]);
    frames_are_exact();
    Ok(())
}
