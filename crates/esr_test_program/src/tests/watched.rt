//! A watched device is called, and its bytes are passed on: no clause can state either.

use super::scripts::rows::table;
use super::scripts::run_script;
use esr_history::Watched;
use std::io;
use std::io::{Read, Write};

/// Counts its calls, and reads and writes nothing.
#[derive(Drop)]
struct Counting {
    reads: u32,
    writes: u32,
    flushes: u32,
}

const UNASKED: Counting = Counting {
    reads: 0,
    writes: 0,
    flushes: 0,
};

impl Read for Counting {
    fn read(&mut self, _buf: &mut [u8]) -> io::Result<usize> {
        self.reads = self.reads.saturating_add(1);
        Ok(0)
    }
}

impl Write for Counting {
    fn write(&mut self, buf: &[u8]) -> io::Result<usize> {
        self.writes = self.writes.saturating_add(1);
        Ok(buf.len())
    }

    fn flush(&mut self) -> io::Result<()> {
        self.flushes = self.flushes.saturating_add(1);
        Ok(())
    }
}

/// Clauses state nothing about a real device, so `Watched` could make up the result of each call and would be proved.
#[test]
fn each_call_reaches_the_device_once(rt: HostRuntime) {
    let mut device = Watched::new(UNASKED);
    let mut buffer = [0u8; 4];
    assert!(rt; matches!(device.read(&mut buffer), Ok(0)));
    assert!(rt; matches!(device.write(b"ab"), Ok(2)));
    assert!(rt; device.flush().is_ok());
    let audited = device.inner();
    assert!(rt; (audited.reads, audited.writes, audited.flushes) == (1, 1, 1));
}

/// Passes bytes on when it is flushed, and not before.
#[derive(Drop)]
struct Holding {
    held: Vec<u8>,
    given: Vec<u8>,
}

impl Write for Holding {
    fn write(&mut self, buf: &[u8]) -> io::Result<usize> {
        self.held.extend_from_slice(buf)?;
        Ok(buf.len())
    }

    fn flush(&mut self) -> io::Result<()> {
        self.given.extend_from_slice(self.held.as_slice())?;
        self.held.clear();
        Ok(())
    }
}

/// No clause requires a flush: a run that leaves its output in a lower buffer would succeed, and show nothing.
#[test]
fn a_run_hands_its_whole_output_on(rt: HostRuntime) {
    let alloc = rt.alloc();
    for row in table() {
        let mut reader = Watched::new(row.script.as_bytes());
        let mut writer = Watched::new(Holding {
            held: Vec::new(alloc),
            given: Vec::new(alloc),
        });
        let ended = run_script(alloc, &mut reader, &mut writer);
        assert!(rt; ended == row.ended);
        let given = writer.inner().given.as_slice();
        assert!(rt; given == row.text.as_bytes(), "{} is handed on", row.name);
    }
}
