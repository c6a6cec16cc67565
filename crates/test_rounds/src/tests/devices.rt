//! Sources and sinks over a reader and writer whose calls fail, or move fewer bytes than requested.
use super::check;
use Call::{Flush, Read, Write};
use firm_text::{Bytes, Failed, Sink, Source};
use std::io::{self, ErrorKind};
use std::process::Abort;

/// A call of a source or a sink. A read has room for two bytes.
enum Call {
    Read,
    Write(&'static [u8]),
    Flush,
}

/// A call; how many bytes the device moves at it, at most, or none where it fails; and what comes of the call: how many
/// bytes it moved, which is 0 at a flush.
type Row = (Call, Option<usize>, Result<usize, Failed>);

/// A failed call is not tried again, nor is one that moves no byte. A write of a byte that moves none fails.
static ROWS: [Row; 12] = [
    (Read, Some(1), Ok(1)),
    (Read, None, Err(Failed)),
    (Read, Some(0), Ok(0)),
    (Read, Some(1), Ok(1)),
    (Write(b"ab"), Some(1), Ok(1)),
    (Write(b"ab"), None, Err(Failed)),
    (Write(b"ab"), Some(0), Err(Failed)),
    (Write(b""), Some(0), Ok(0)),
    (Write(b"ab"), Some(1), Ok(1)),
    (Flush, Some(0), Ok(0)),
    (Flush, None, Err(Failed)),
    (Flush, Some(0), Ok(0)),
];

static KINDS: [ErrorKind; 4] = [
    ErrorKind::Interrupted,
    ErrorKind::WouldBlock,
    ErrorKind::TimedOut,
    ErrorKind::Other,
];

/// A reader and writer that answers its calls as the rows say, and fails with errors of this kind.
#[derive(Drop)]
struct Device {
    kind: ErrorKind,
    rows: &'static [Row],
    calls: usize,
}

impl Device {
    /// The most bytes that the next call moves.
    fn next_most(&mut self) -> io::Result<usize> {
        let row = self.rows.get(self.calls);
        self.calls = self.calls.saturating_add(1);
        match row {
            Some((_, Some(most), _)) => Ok(*most),
            _ => Err(self.kind.into()),
        }
    }
}

impl io::Read for Device {
    fn read(&mut self, buffer: &mut [u8]) -> io::Result<usize> {
        Ok(buffer.len().min(self.next_most()?))
    }
}

impl io::Write for Device {
    fn write(&mut self, bytes: &[u8]) -> io::Result<usize> {
        Ok(bytes.len().min(self.next_most()?))
    }

    fn flush(&mut self) -> io::Result<()> {
        self.next_most()?;
        Ok(())
    }
}

fn made(device: &mut Bytes<Device>, call: &Call) -> Result<usize, Failed> {
    match call {
        Read => device.read(&mut [0; 2]),
        Write(bytes) => device.write(bytes),
        Flush => {
            device.flush()?;
            Ok(0)
        }
    }
}

fn expect_calls(rt: &impl Abort, device: &mut Bytes<Device>, rows: &[Row]) {
    for (call, _, wanted) in rows {
        check(rt, made(device, call) == *wanted, "a call");
    }
}

/// Makes each call in turn. The device is called as often.
fn play(rt: &impl Abort, kind: ErrorKind, rows: &'static [Row]) {
    let mut device = Bytes::new(Device {
        kind,
        rows,
        calls: 0,
    });
    expect_calls(rt, &mut device, rows);
    let calls = device.into_inner().calls;
    check(rt, calls == rows.len(), "as many calls");
}

fn play_all(rt: &impl Abort, kinds: &[ErrorKind], rows: &'static [Row]) {
    for kind in kinds {
        play(rt, *kind, rows);
    }
}

#[test]
fn each_call_reaches_the_device_once(rt: HostRuntime) {
    play_all(&rt, &KINDS, &ROWS);
}
