use flow_base::{Failed, Sink, Source, StdSink, StdSource};
use std::io;
use std::io::{Error, ErrorKind, Read, Write};
use std::test::Fail;

/// A reader that gives one byte, fails, and is then at its end.
#[derive(Drop)]
struct Faltering {
    reads: u8,
}

impl Read for Faltering {
    fn read(&mut self, buf: &mut [u8]) -> io::Result<usize> {
        let read = self.reads;
        self.reads = read.saturating_add(1);
        if read == 0 && !buf.is_empty() {
            buf[0] = b'a';
            return Ok(1);
        }
        if read == 1 {
            return Err(Error::from(ErrorKind::BrokenPipe));
        }
        Ok(0)
    }
}

/// A writer whose writes or flushes fail, or that takes nothing.
#[derive(Drop)]
struct Stubborn {
    writes: bool,
    flushes: bool,
    most: usize,
}

impl Write for Stubborn {
    fn write(&mut self, buf: &[u8]) -> io::Result<usize> {
        if self.writes {
            Ok(self.most.min(buf.len()))
        } else {
            Err(Error::from(ErrorKind::BrokenPipe))
        }
    }

    fn flush(&mut self) -> io::Result<()> {
        if self.flushes {
            Ok(())
        } else {
            Err(Error::from(ErrorKind::BrokenPipe))
        }
    }
}

#[test]
fn a_failing_read_is_no_end_of_input(rt: HostRuntime) -> Result<(), Fail> {
    let mut source = StdSource::new(Faltering { reads: 0 });
    let mut buf = [b'.'; 4];
    for want in [Ok(1), Err(Failed), Ok(0)] {
        assert!(rt; source.read(&mut buf) == want);
    }
    assert!(rt; buf == [b'a', b'.', b'.', b'.']);
    Ok(())
}

#[test]
fn a_failing_write_or_flush_is_a_fault(rt: HostRuntime) -> Result<(), Fail> {
    let rows = [
        (true, true, 9, Ok(3)),
        (true, true, 2, Ok(2)),
        (true, true, 0, Err(Failed)),
        (false, true, 9, Err(Failed)),
        (true, false, 9, Err(Failed)),
    ];
    for (writes, flushes, most, want) in rows {
        let mut sink = StdSink::new(Stubborn {
            writes,
            flushes,
            most,
        });
        assert!(rt; sink.write(b"abc") == want);
    }
    Ok(())
}
