//! One run of each source and sink: in steps, with a call that fails, to the end.
use crate::same::{expect_same, expect_that};
use edge_io::{MemSink, MemSource, Sink, Source, StdSink, StdSource, write_whole};

#[test]
fn a_source_gives_in_steps_and_fails_in_mid_stream(rt: HostRuntime) {
    let mut source = MemSource::new(
        b"abcde".to_vec(rt.alloc()).expect(&rt, "memory"),
        3,
        [2].to_vec(rt.alloc()).expect(&rt, "memory"),
    );
    let mut buffer = [0; 4];
    expect_same(&rt, source.read(&mut buffer).expect(&rt, "a read"), 3);
    expect_same(&rt, buffer, *b"abc\0");
    expect_that(&rt, source.read(&mut buffer).is_err());
    expect_same(&rt, source.read(&mut buffer).expect(&rt, "a read"), 2);
    expect_same(&rt, buffer, *b"dec\0");
    expect_same(&rt, source.read(&mut buffer).expect(&rt, "a read"), 0);
}

#[test]
fn a_sink_takes_in_steps_and_fails_where_named_and_where_full(rt: HostRuntime) {
    let mut sink = MemSink::new(
        rt.alloc(),
        6,
        4,
        [2].to_vec(rt.alloc()).expect(&rt, "memory"),
    )
    .expect(&rt, "memory");
    expect_same(&rt, sink.write(b"abcde").expect(&rt, "a write"), 4);
    expect_that(&rt, sink.write(b"e").is_err());
    expect_same(&rt, sink.write(b"efg").expect(&rt, "a write"), 2);
    expect_that(&rt, sink.write(b"g").is_err());
    expect_same(&rt, sink.write(b"").expect(&rt, "a write"), 0);
    expect_same(&rt, sink.bytes(), b"abcdef".as_slice());
}

#[test]
fn a_whole_piece_is_written_or_a_prefix_of_it(rt: HostRuntime) {
    let mut sink = MemSink::new(
        rt.alloc(),
        20,
        2,
        [5].to_vec(rt.alloc()).expect(&rt, "memory"),
    )
    .expect(&rt, "memory");
    write_whole(&mut sink, b"abcde").expect(&rt, "a write");
    expect_that(&rt, write_whole(&mut sink, b"fghi").is_err());
    expect_same(&rt, sink.bytes(), b"abcdefg".as_slice());
}

#[test]
fn standard_readers_and_writers_are_adapted(rt: HostRuntime) {
    let mut source = StdSource::new(b"abc".as_slice());
    let mut buffer = [0; 2];
    expect_same(&rt, source.read(&mut buffer).expect(&rt, "a read"), 2);
    expect_same(&rt, source.read(&mut buffer).expect(&rt, "a read"), 1);
    expect_same(&rt, buffer, *b"cb");
    let mut written = Vec::new(rt.alloc());
    write_whole(&mut StdSink::new(&mut written), b"hello").expect(&rt, "a write");
    expect_same(&rt, written.as_slice(), b"hello".as_slice());
}
