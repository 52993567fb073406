//! The adapters do what the things behind them do.

use super::*;
use dap_outside::{Failed, FileFault, Files, MAX_READ, Sink, SinkFault, Source};
use std::fs;
use std::io::{self, ErrorKind, Read, Write};
use std::test::Fail;

/// A reader and writer whose every call fails.
#[derive(Drop)]
struct Broken;

impl Read for Broken {
    fn read(&mut self, _buf: &mut [u8]) -> io::Result<usize> {
        Err(io::Error::from(ErrorKind::TimedOut))
    }
}

impl Write for Broken {
    fn write(&mut self, _buf: &[u8]) -> io::Result<usize> {
        Err(io::Error::from(ErrorKind::TimedOut))
    }

    fn flush(&mut self) -> io::Result<()> {
        Ok(())
    }
}

#[test]
fn an_error_is_a_fault_and_never_want_of_memory(rt: HostRuntime) {
    let mut source = FileSource::new(Broken);
    assert_eq!(rt; source.read(&mut [0]), Err(Failed));
    let mut sink = FileSink::new(Broken);
    for piece in [b"a".as_slice(), b""] {
        assert_eq!(rt; sink.write(piece), Err(SinkFault::Failed));
    }
    let read = files::read_front(rt.alloc(), &mut Broken);
    assert_eq!(rt; read.err(), Some(FileFault::Failed));
}

#[test]
fn files_are_read_whole_by_their_paths(rt: HostRuntime) -> Result<(), Fail> {
    let alloc = rt.alloc();
    let long = vec![in alloc; 7u8; MAX_READ + 1]?;
    fs::write(&rt, "short", "abc\n")?;
    fs::write(&rt, "long", long.as_slice())?;
    let mut files = DirFiles::new(&rt);
    let short = files.read_file(alloc, "short").map_err(|_| "a file")?;
    assert_eq!(rt; short.as_slice(), b"abc\n".as_slice());
    let long = files.read_file(alloc, "long").map_err(|_| "a file")?;
    assert_eq!(rt; long.len(), MAX_READ);
    assert_eq!(rt;
        files.read_file(alloc, "missing").err(),
        Some(FileFault::Failed)
    );
    Ok(())
}

#[test]
fn a_file_is_a_source_and_a_sink(rt: HostRuntime) -> Result<(), Fail> {
    let mut sink = FileSink::new(fs::create(&rt, "written")?);
    assert_eq!(rt; sink.write(b"abc"), Ok(3));
    assert_eq!(rt; sink.write(b""), Ok(0));
    let mut source = FileSource::new(fs::open(&rt, "written")?);
    let mut buf = [0; 2];
    assert_eq!(rt; source.read(&mut buf), Ok(2));
    assert_eq!(rt; buf, *b"ab");
    assert_eq!(rt; source.read(&mut buf), Ok(1));
    assert_eq!(rt; source.read(&mut buf), Ok(0));
    Ok(())
}
