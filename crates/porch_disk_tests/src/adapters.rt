//! What no clause says of the streams of the process: that a call which failed outside is answered so.

use porch_edge::{Failed, Sink, Source, StdSink, StdSource, write_all};
use std::io;
use std::io::{Read, Write};

// Reads and writes one byte a call, fails in the second, and in the third moves nothing.
#[derive(Drop)]
struct Unsteady {
    calls: u64,
}

impl Unsteady {
    fn moved(&mut self) -> io::Result<bool> {
        self.calls = self.calls.saturating_add(1);
        match self.calls {
            2 => Err(io::Error::from(io::ErrorKind::BrokenPipe)),
            3 => Ok(false),
            _ => Ok(true),
        }
    }
}

impl Read for Unsteady {
    fn read(&mut self, buf: &mut [u8]) -> io::Result<usize> {
        if !self.moved()? || buf.is_empty() {
            return Ok(0);
        }
        buf[0] = b'x';
        Ok(1)
    }
}

impl Write for Unsteady {
    fn write(&mut self, buf: &[u8]) -> io::Result<usize> {
        if !self.moved()? || buf.is_empty() {
            return Ok(0);
        }
        Ok(1)
    }

    fn flush(&mut self) -> io::Result<()> {
        Ok(())
    }
}

#[test]
fn a_stream_that_fails_is_answered_so(rt: HostRuntime) {
    let mut source = StdSource::new(Unsteady { calls: 0 });
    for want in [Ok(1), Err(Failed), Ok(0), Ok(1)] {
        let mut two = [b'.'; 2];
        assert_eq!(rt; source.read(&mut two), want);
        assert_eq!(rt; two[0] == b'x', want == Ok(1));
    }
    let mut sink = StdSink::new(Unsteady { calls: 0 });
    for want in [Ok(1), Err(Failed), Err(Failed), Ok(1)] {
        assert_eq!(rt; sink.write(b"ab"), want);
    }
    let mut sink = StdSink::new(Unsteady { calls: 0 });
    assert_eq!(rt; write_all(&mut sink, b"ab"), Err(Failed));
}
