// Sources and sinks, through their bounds.
use mw_outside::{MemSink, MemSource, Sink, Source, StdSink, StdSource};
use std::test::Fail;

/// Reads once into a small buffer.
fn take<S: Source>(source: &mut S, buf: &mut [u8]) -> Option<usize> {
    source.read(buf).ok()
}

fn offer<K: Sink>(sink: &mut K, piece: &[u8]) -> Option<usize> {
    sink.write(piece).ok()
}

#[test]
fn a_source_in_memory_gives_pieces_and_fails_where_it_is_told(rt: HostRuntime) -> Result<(), Fail> {
    let alloc = rt.alloc();
    let mut source = MemSource::new(b"abcdef".to_vec(alloc)?, 4, [2].to_vec(alloc)?);
    let mut buf = [0u8; 5];
    for (count, bytes, faults) in [
        (Some(4), b"abcd\0", 0),
        (None, b"abcd\0", 1),
        (Some(2), b"efcd\0", 1),
        (Some(0), b"efcd\0", 1),
    ] {
        assert_eq!(rt; take(&mut source, &mut buf), count);
        assert_eq!(rt; buf.as_slice(), bytes.as_slice());
        assert_eq!(rt; source.faults(), faults);
    }
    Ok(())
}

#[test]
fn a_sink_in_memory_takes_pieces_and_fails_where_it_is_told(rt: HostRuntime) -> Result<(), Fail> {
    let alloc = rt.alloc();
    let mut sink = MemSink::new(alloc, 9, 7, [2].to_vec(alloc)?)?;
    for (piece, count, faults) in [
        ("reduce in", Some(7), 0),
        ("in", None, 1),
        ("in P", Some(2), 1),
        (" P", None, 2),
        ("", Some(0), 2),
    ] {
        assert_eq!(rt; offer(&mut sink, piece.as_bytes()), count);
        assert_eq!(rt; sink.faults(), faults);
    }
    assert_eq!(rt; sink.bytes(), b"reduce in".as_slice());
    Ok(())
}

#[test]
fn the_standard_streams_adapt(rt: HostRuntime) -> Result<(), Fail> {
    let mut source = StdSource::new(rt.reader());
    let mut buf = [0u8; 4];
    assert!(rt; take(&mut source, &mut buf).is_some());
    let mut sink = StdSink::new(std::io::writer(&rt));
    assert_eq!(rt; offer(&mut sink, b"ok\n"), Some(3));
    Ok(())
}
