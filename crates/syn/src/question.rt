//! Looks at a file before it is made an image, and asks a person where something would be lost.

use std::alloc::Global;
use std::fs::Files;
use std::io::{Read, Write};
use syn_command::CommandError;
use syn_disk::DISK_SIZE;
use syn_files::{Held, NamedDisks, held_in};
use syn_refusal::Refusal;

/// Whether the file may be made an image. Where it has the length of an image and holds none, it is
/// somebody's. Where it holds one with a history, a person who is there is asked.
///
/// Refused 9 where it is somebody's, and says so; 4 where the person does not want it; and as the
/// opening of the file is.
pub fn check_format<F: Files, N: NamedDisks, I: Read, E: Write>(
    alloc: Global,
    files: &F,
    disks: &N,
    name: &str,
    asks: bool,
    input: &mut I,
    errors: &mut E,
) -> Result<(), CommandError> {
    if !is_of_size(files, name) {
        return Ok(());
    }
    let held = held_in(alloc, disks, name)?;
    if held == Held::Strange {
        let _ = writeln!(
            errors,
            "syn: {name} holds bytes that are no image: --force formats it all the same"
        );
        return Err(CommandError::from(Refusal::Device));
    }
    if asks && is_lost(&held, name, errors) && !is_agreed(input) {
        return Err(CommandError::from(Refusal::Exists));
    }
    Ok(())
}

/// Whether there is a file that is as long as an image.
fn is_of_size<F: Files>(files: &F, name: &str) -> bool {
    match files.metadata(name) {
        Ok(metadata) => metadata.is_file() && metadata.len() == DISK_SIZE as u64,
        Err(_) => false,
    }
}

/// Asks whether what the file holds may be lost, where it holds something. Whether it asked.
fn is_lost<E: Write>(held: &Held, name: &str, errors: &mut E) -> bool {
    let asked = match held {
        Held::Nothing | Held::Strange => return false,
        Held::Replica { events } => write!(errors, "syn: {name} is a replica with {events} events"),
        Held::Archive { session, marks } => write!(
            errors,
            "syn: {name} is an archive with {marks} marks, whose last session is {session}"
        ),
        Held::OldVersion => write!(errors, "syn: {name} is an image of version 1"),
    };
    let _ = asked;
    let _ = write!(errors, ". Is it to be lost? [y/N] ");
    let _ = errors.flush();
    true
}

/// The longest answer that is read.
const LONGEST_ANSWER: usize = 4_096;

/// Whether the next line of the input is a yes. A longer one than any answer is none.
fn is_agreed<I: Read>(input: &mut I) -> bool {
    let mut first = None;
    for _ in 0..LONGEST_ANSWER {
        let mut byte = [0];
        match input.read(&mut byte) {
            Ok(1) if byte[0] != b'\n' => first = first.or(Some(byte[0])),
            _ => return first == Some(b'y') || first == Some(b'Y'),
        }
    }
    false
}
