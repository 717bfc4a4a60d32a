//! Readers and writers that cut their bytes, and that fail at a call and from then on.

use std::alloc::Global;
use std::io;
use std::io::{BufRead, ErrorKind, Read, Write};

/// More calls than any run of a test vector makes.
pub const EVERY_CALL: usize = usize::MAX;

/// Counts a call, and fails where none was left.
fn count(calls_left: &mut usize) -> io::Result<()> {
    match calls_left.checked_sub(1) {
        Some(left) => {
            *calls_left = left;
            Ok(())
        }
        None => Err(io::Error::from(ErrorKind::Other)),
    }
}

/// Hands out at most `piece` bytes a call, and fails when no calls are left. Where more bytes are
/// consumed than were shown, it fails from then on.
#[derive(Drop)]
pub struct PieceReader<'a> {
    bytes: &'a [u8],
    piece: usize,
    calls_left: usize,
}

impl<'a> PieceReader<'a> {
    /// A reader of these bytes that fails after so many calls.
    pub fn new(bytes: &'a [u8], piece: usize, calls_left: usize) -> Self {
        PieceReader {
            bytes,
            piece,
            calls_left,
        }
    }
}

impl Read for PieceReader<'_> {
    fn read(&mut self, buf: &mut [u8]) -> io::Result<usize> {
        count(&mut self.calls_left)?;
        let len = self.bytes.len().min(self.piece).min(buf.len());
        let (front, rest) = self.bytes.split_at(len);
        buf[..len].copy_from_slice(front);
        self.bytes = rest;
        Ok(len)
    }
}

impl BufRead for PieceReader<'_> {
    fn fill_buf(&mut self) -> io::Result<&[u8]> {
        count(&mut self.calls_left)?;
        let len = self.bytes.len().min(self.piece);
        Ok(&self.bytes[..len])
    }

    fn consume(&mut self, amount: usize) {
        if amount <= self.bytes.len().min(self.piece) {
            self.bytes = &self.bytes[amount..];
        } else {
            self.calls_left = 0;
        }
    }
}

/// Takes at most `piece` bytes a call, and fails when no calls are left. A flush is no call, but fails then
/// too.
#[derive(Drop)]
pub struct PieceWriter {
    written: Vec<u8>,
    piece: usize,
    calls_left: usize,
}

impl PieceWriter {
    /// A writer that fails after so many calls. Takes no memory.
    pub fn new(alloc: Global, piece: usize, calls_left: usize) -> Self {
        PieceWriter {
            written: Vec::new(alloc),
            piece,
            calls_left,
        }
    }

    /// What was written.
    pub fn written(&self) -> &[u8] {
        self.written.as_slice()
    }
}

impl Write for PieceWriter {
    fn write(&mut self, buf: &[u8]) -> io::Result<usize> {
        count(&mut self.calls_left)?;
        self.written.write(&buf[..buf.len().min(self.piece)])
    }

    fn flush(&mut self) -> io::Result<()> {
        if self.calls_left == 0 {
            return Err(io::Error::from(ErrorKind::Other));
        }
        Ok(())
    }
}
