//! The descriptors of the standard streams.
use libc::net::POLLOUT;
use libc::types::pollfd;
use std::fs::{File, OpenOptions};
use std::io;
use std::io::{ErrorKind, Stdout, Write};
use std::os::fd::{AsRawFd, IntoRawFd, RawFd};
use std::rt::Files;

/// What a write to the output waits for at most, in milliseconds.
const WAIT: i32 = 10_000;

/// How many bytes a pipe takes without waiting where it has room (POSIX's PIPE_BUF on Linux).
const PIECE: usize = 4096;

/// Takes those of the descriptors 0, 1 and 2 that are closed, so that no file that is opened later gets the number of a stream, and
/// keeps them until the process ends. The input then cannot be read and the output cannot be written; what is written to the standard
/// error is lost. A program calls it before it opens anything.
pub fn take_closed_streams<R: Files<File = File>>(rt: &R) {
    take(rt, 0, File::options().write(true));
    take(rt, 1, File::options().read(true));
    take(rt, 2, File::options().write(true));
}

/// Opens the null device, which gets the lowest number that is free, and keeps it where that is this one.
fn take<R: Files<File = File>>(rt: &R, number: RawFd, options: &OpenOptions) {
    if let Ok(file) = options.open(rt, "/dev/null")
        && file.as_raw_fd() == number
    {
        let _kept = file.into_raw_fd();
    }
}

/// The standard output. A write that cannot go on within ten seconds, as one to a pipe that is full and that nobody reads, fails.
#[derive(Drop)]
pub struct TimedOutput {
    output: Stdout,
}

impl TimedOutput {
    pub fn new(output: Stdout) -> Self {
        TimedOutput { output }
    }
}

impl Write for TimedOutput {
    fn write(&mut self, bytes: &[u8]) -> io::Result<usize> {
        if !has_room(self.output.as_raw_fd()) {
            return Err(ErrorKind::TimedOut.into());
        }
        // more at once could wait in the midst of it
        self.output.write(&bytes[..bytes.len().min(PIECE)])
    }

    fn flush(&mut self) -> io::Result<()> {
        self.output.flush()
    }
}

/// Waits until a write would not wait. A wait that fails is no word against the write, which then tells itself.
fn has_room(output: RawFd) -> bool {
    let mut asked = [pollfd {
        fd: output,
        events: POLLOUT,
        revents: 0,
    }];
    libc::net::poll(&mut asked, WAIT) != 0
}
