//! Runs over the adapters of standard input and output: how each ends, by what fails below them.

use dm_derive::{Status, derive_main};
use dm_standard::{StdSink, StdSource};
use std::alloc::Global;
use std::io;
use std::io::{Read, Write};

const INPUT: &[u8] = b"PartialEq\nstruct P(i32);";

/// Gives a text, and then fails.
#[derive(Drop)]
struct Broken<'a> {
    bytes: &'a [u8],
}

impl<'a> Read for Broken<'a> {
    fn read(&mut self, buf: &mut [u8]) -> io::Result<usize> {
        if self.bytes.is_empty() {
            return Err(io::Error::from(io::ErrorKind::BrokenPipe));
        }
        self.bytes.read(buf)
    }
}

/// Takes nothing.
#[derive(Drop)]
struct Full;

impl Write for Full {
    fn write(&mut self, _buf: &[u8]) -> io::Result<usize> {
        Ok(0)
    }

    fn flush(&mut self) -> io::Result<()> {
        Ok(())
    }
}

/// How a run ends that reads from the one and writes to the other.
fn ended<R: Read + Drop, W: Write + Drop>(alloc: Global, reader: R, writer: W) -> Status {
    let mut source = StdSource::new(reader);
    let mut sink = StdSink::new(writer);
    derive_main(alloc, &[], &mut source, &mut sink)
}

/// How runs end where nothing fails, where the reader does, and where the writer does.
fn ends(alloc: Global) -> [Status; 3] {
    let sound = ended(alloc, INPUT, Vec::new(alloc));
    let unread = ended(alloc, Broken { bytes: INPUT }, Vec::new(alloc));
    let unwritten = ended(alloc, INPUT, Full);
    [sound, unread, unwritten]
}

#[test]
fn ends_by_cause(rt: HostRuntime) {
    let causes = [Status::Done, Status::ReadFault, Status::WriteFault];
    assert_eq!(rt; ends(rt.alloc()), causes);
}
