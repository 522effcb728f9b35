//! Readers and writers that fail, and readers that do not end.

use super::drive_by;
use esr_drive::DriveFault;
use esr_history::Watched;
use esr_test_devices::{Way, cut_after, is_cut, narrow_until};
use std::io;
use std::io::Read;

const FILE: &str = "item a 0\nsession\nbegin u update 0\nwrite u a 5\ncommit u\n";

const TEXT: &str = "item a 0\n\
        session 0\n\
        begun u 1\n\
        wrote u a 5\n\
        committed u\n\
        totals import 0 export 0 entries 3\n";

/// Gives one byte again and again.
#[derive(Clone, Copy)]
struct Endless {
    byte: u8,
}

impl Read for Endless {
    fn read(&mut self, buf: &mut [u8]) -> io::Result<usize> {
        buf.fill(self.byte);
        Ok(buf.len())
    }
}

/// No clause states what is written if the reader does not specify its bytes: it could be the drive of half a file.
#[test]
fn a_failed_read_leaves_nothing_written(rt: HostRuntime) {
    let alloc = rt.alloc();
    for left in 0..7 {
        let mut reader = cut_after(FILE, 10, left);
        let mut writer = Watched::new(Vec::new(alloc));
        let ended = drive_by(&rt, alloc, &mut reader, &mut writer, 1);
        assert!(rt; ended == Err(DriveFault::Read));
        assert!(rt; is_cut(&reader, &writer));
    }
}

/// No clause counts the calls on a device: a drive that loses the rest of a write, or is never flushed, would end well.
#[test]
fn a_failed_write_ends_the_text(rt: HostRuntime) {
    let alloc = rt.alloc();
    // Each of the three parts of the text (the items, the block and the totals) ends with a flush.
    let bytes_after_calls = [
        (0, 0),
        (1, 9),
        (2, 9),
        (3, 29),
        (4, 49),
        (5, 53),
        (6, 53),
        (7, 73),
        (8, 88),
        (9, 88),
    ];
    for (left, bytes) in bytes_after_calls {
        let mut reader = Watched::new(FILE.as_bytes());
        let mut writer = narrow_until(alloc, 20, left, Way::TakesNone);
        let ended = drive_by(&rt, alloc, &mut reader, &mut writer, 1);
        let fine = left == 9;
        assert!(rt; (ended == Ok(())) == fine && writer.failed() != fine && !reader.failed());
        assert!(rt; fine || ended == Err(DriveFault::Write));
        let text = writer.inner().taken.as_slice();
        assert!(rt; text.len() == bytes && TEXT.as_bytes().starts_with(text));
    }
}

/// No clause bounds the bytes taken from a device that does not specify them: this one could fill the memory first.
#[test]
fn a_stream_without_end_is_not_read_to_its_end(rt: HostRuntime) {
    let streams = [
        (b'#', DriveFault::LineTooLong),
        (b'\n', DriveFault::TooManyLines),
    ];
    for (byte, fault) in streams {
        let mut reader = Watched::new(Endless { byte });
        let mut writer = Watched::new(Vec::new(rt.alloc()));
        let ended = drive_by(&rt, rt.alloc(), &mut reader, &mut writer, 1);
        assert!(rt; ended == Err(fault) && writer.inner().is_empty());
    }
}
