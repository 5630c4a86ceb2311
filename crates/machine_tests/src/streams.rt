//! Sources and sinks, in memory and over the system.

use dp_io::{Failed, LazyFile, MemorySink, MemorySource, Sink, Source, StdErr, StdOut, send_all};
use std::fs;
use std::test::Fail;

#[test]
fn gives_bytes_in_pieces(rt: HostRuntime) -> Result<(), Fail> {
    let alloc = rt.alloc();
    let fails = vec![in alloc; 1]?;
    let mut source = MemorySource::new(b"telegram".to_vec(alloc)?, 3, fails);
    let mut into = [0; 5];
    let mut given = Vec::new(alloc);
    for outcome in [Ok(3), Err(Failed), Ok(3), Ok(2), Ok(0)] {
        assert_eq!(rt; source.read(&mut into), outcome);
        if let Ok(count) = outcome {
            given.extend_from_slice(&into[..count])?;
        }
    }
    assert_eq!(rt; given.as_slice(), b"telegram".as_slice());
    Ok(())
}

#[test]
fn takes_what_fits(rt: HostRuntime) -> Result<(), Fail> {
    let alloc = rt.alloc();
    let mut sink = MemorySink::new(alloc, 5, vec![in alloc; 1]?)?;
    assert_eq!(rt; sink.write(b"abc"), Ok(3));
    assert_eq!(rt; sink.write(b"de"), Err(Failed));
    assert_eq!(rt; sink.write(b"defg"), Ok(2));
    assert_eq!(rt; sink.write(b"h"), Err(Failed));
    assert_eq!(rt; sink.taken(), b"abcde".as_slice());
    Ok(())
}

#[test]
fn hands_a_piece_over(rt: HostRuntime) -> Result<(), Fail> {
    let alloc = rt.alloc();
    let mut fine = MemorySink::new(alloc, 8, Vec::new(alloc))?;
    assert_eq!(rt; send_all(&mut fine, b"tele"), Ok(()));
    assert_eq!(rt; send_all(&mut fine, b"gram"), Ok(()));
    assert_eq!(rt; send_all(&mut fine, b""), Ok(()));
    assert_eq!(rt; fine.taken(), b"telegram".as_slice());

    let mut full = MemorySink::new(alloc, 4, Vec::new(alloc))?;
    assert_eq!(rt; send_all(&mut full, b"telegram"), Err(Failed));
    assert_eq!(rt; full.taken(), b"tele".as_slice());
    Ok(())
}

#[test]
fn reads_a_file_to_its_end(rt: HostRuntime) -> Result<(), Fail> {
    let path = "lazy_file.tmp";
    fs::write(&rt, path, "telegram")?;
    let mut file = LazyFile::new(&rt, path);
    let mut into = [0; 5];
    assert_eq!(rt; file.read(&mut into), Ok(5));
    assert_eq!(rt; &into[..], b"teleg".as_slice());
    assert_eq!(rt; file.read(&mut into), Ok(3));
    assert_eq!(rt; &into[..3], b"ram".as_slice());
    assert_eq!(rt; file.read(&mut into), Ok(0));
    fs::remove_file(&rt, path)?;
    Ok(())
}

#[test]
fn fails_at_a_path_that_is_not_there(rt: HostRuntime) {
    let mut file = LazyFile::new(&rt, "no/such/path");
    assert_eq!(rt; file.read(&mut [0; 5]), Err(Failed));
    assert_eq!(rt; file.read(&mut [0; 5]), Err(Failed));
}

#[test]
fn writes_to_the_streams(rt: HostRuntime) {
    assert_eq!(rt;
        send_all(&mut StdOut::new(&rt), b"to standard output\n"),
        Ok(())
    );
    assert_eq!(rt;
        send_all(&mut StdErr::new(&rt), b"to standard error\n"),
        Ok(())
    );
}
