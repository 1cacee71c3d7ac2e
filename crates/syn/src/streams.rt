//! The standard streams that the program was started without.

use std::fs::{Files, OpenOptions};
use std::io;
use std::os::fd::IntoRawFd;

/// `lseek`'s word for the place where a stream is.
const SEEK_CUR: i32 = 1;

/// Opens a file in the place of each standard stream that the program was started without.
///
/// The system gives the lowest free number to the next file or socket that a program opens. One
/// that had the number of a standard stream would be read and written as that stream, past its own
/// lock and journal. So this comes before anything else is opened.
///
/// The file is the null device, opened the other way round: to read from a closed standard input,
/// and to write to a closed output, fails as it does on a stream that is closed.
///
/// Refused 9 where a stream is closed and the null device cannot be opened.
pub fn open_closed_streams<F: Files>(files: &F) -> io::Result<()>
where
    F::File: IntoRawFd,
{
    for number in libc::STDIN_FILENO..=libc::STDERR_FILENO {
        if is_closed(number) {
            let is_input = number == libc::STDIN_FILENO;
            let mut options = OpenOptions::new();
            options.read(!is_input).write(is_input);
            // The number stays open until the program ends.
            let _ = options.open(files, "/dev/null")?.into_raw_fd();
        }
    }
    Ok(())
}

/// No stream has this number. Most that have one are pipes or terminals, which have no place.
fn is_closed(number: i32) -> bool {
    libc::lseek(number, 0, SEEK_CUR) < 0 && os::errno() == libc::EBADF
}
