//! Sources and sinks, in memory and over the streams of the library.

use ft_outside::{
    Failed, Gate, MemSink, MemSource, NoGate, ReadErr, Sink, Source, StdSink, StdSource, WriteErr,
    read_source, write_all,
};
use std::io::{self, BufWriter, ErrorKind, Read};
use std::test::Fail;

const ROOM: usize = 1_048_576;

#[test]
fn a_source_gives_pieces_and_then_its_end(rt: HostRuntime) -> Result<(), Fail> {
    let alloc = rt.alloc();
    let mut source = MemSource::new(b"rule Nat type".to_vec(alloc)?, 4, Vec::new(alloc));
    let mut buf = [0; 16];
    assert!(rt; source.read(&mut buf) == Ok(4));
    assert!(rt; buf.starts_with(b"rule"));
    let rest = read_source(alloc, &mut source, 9)?;
    assert!(rt; rest.as_slice() == b" Nat type".as_slice());
    assert!(rt; source.read(&mut buf) == Ok(0));
    Ok(())
}

#[test]
fn a_listed_read_fails_and_gives_nothing(rt: HostRuntime) -> Result<(), Fail> {
    let alloc = rt.alloc();
    let mut source = MemSource::new(b"rule Nat type".to_vec(alloc)?, 4, vec![in alloc; 2]?);
    assert!(rt; read_source(alloc, &mut source, ROOM).err() == Some(ReadErr::Fault));
    let rest = read_source(alloc, &mut source, ROOM)?;
    assert!(rt; rest.as_slice() == b" Nat type".as_slice());
    Ok(())
}

#[test]
fn one_byte_over_the_limit_is_too_long(rt: HostRuntime) -> Result<(), Fail> {
    let alloc = rt.alloc();
    let mut source = MemSource::new(b"rule Nat type".to_vec(alloc)?, 4, Vec::new(alloc));
    assert!(rt; read_source(alloc, &mut source, 12).err() == Some(ReadErr::TooLong));
    Ok(())
}

#[test]
fn a_listed_write_fails_after_a_prefix(rt: HostRuntime) -> Result<(), Fail> {
    let alloc = rt.alloc();
    let mut sink = MemSink::new(alloc, ROOM, 5, vec![in alloc; 2]?)?;
    assert!(rt; write_all(&mut sink, b"accepted Nat\n") == Err(Failed));
    assert!(rt; sink.bytes() == b"accep".as_slice());
    assert!(rt; write_all(&mut sink, b"ted Nat\n") == Ok(()));
    assert!(rt; sink.bytes() == b"accepted Nat\n".as_slice());
    Ok(())
}

#[test]
fn a_full_sink_takes_only_nothing(rt: HostRuntime) -> Result<(), Fail> {
    let alloc = rt.alloc();
    let mut sink = MemSink::new(alloc, 5, 5, Vec::new(alloc))?;
    assert!(rt; write_all(&mut sink, b"accepted") == Err(Failed));
    assert!(rt; sink.write(b"") == Ok(0));
    assert!(rt; sink.bytes() == b"accep".as_slice());
    Ok(())
}

// A reader whose calls all fail.
#[derive(Drop)]
struct Broken;

impl Read for Broken {
    fn read(&mut self, _buf: &mut [u8]) -> io::Result<usize> {
        Err(ErrorKind::BrokenPipe.into())
    }
}

#[test]
fn a_reader_is_passed_on(rt: HostRuntime) -> Result<(), Fail> {
    let alloc = rt.alloc();
    let mut source = StdSource::new(b"rule Nat type".as_slice());
    let bytes = read_source(alloc, &mut source, 13)?;
    assert!(rt; bytes.as_slice() == b"rule Nat type".as_slice());
    assert!(rt; StdSource::new(Broken).read(&mut [0; 4]) == Err(Failed));
    Ok(())
}

#[test]
fn a_writer_is_passed_on_and_flushed(rt: HostRuntime) -> Result<(), Fail> {
    let alloc = rt.alloc();
    let mut writer = BufWriter::new(alloc, Vec::new(alloc))?;
    assert!(rt; write_all(&mut StdSink::new(&mut writer), b"accepted Nat\n") == Ok(()));
    assert!(rt; writer.get_ref().as_slice() == b"accepted Nat\n".as_slice());
    let mut five = [0; 5];
    assert!(rt; write_all(&mut StdSink::new(five.as_mut_slice()), b"accepted") == Err(Failed));
    assert!(rt; five.as_slice() == b"accep".as_slice());
    Ok(())
}

#[test]
fn faults_are_named_and_the_gate_opens(rt: HostRuntime) {
    NoGate.enter(0);
    assert!(rt; WriteErr::from(Failed) == WriteErr::Fault);
    assert!(rt; ReadErr::from(Failed) == ReadErr::Fault);
}
