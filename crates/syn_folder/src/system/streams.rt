//! What is read of a directory or of a file that is open.
ghost use Rattle.std.specs.Prelude.{◌≡◌, take, IfOk, IfSome};

use std::alloc::Global;
use std::io::{self, Read};
use syn_tree::LONGEST_FILE;

/// All that is read of the directory: the names in it, each with a zero byte after it.
pub(super) fn all_names<D: Read + Drop>(alloc: Global, mut dir: D) -> io::Result<Vec<u8>>
    ensures { IfOk result (λ names. IfSome (D.remaining dir) (λ all. names.items ≡ all)) }
{
    let mut names = Vec::new(alloc);
    // The system wants room for the longest name at each read.
    let mut chunk = [0; 4096];
    for _turn in 0..u64::MAX {
        let count = dir.read(&mut chunk)?;
        if count == 0 {
            return Ok(names);
        }
        names.extend_from_slice(&chunk[..count])?;
    }
    Err(io::Error::from(io::ErrorKind::Other))
}

/// The bytes of the file, as many as one of a replica may have.
pub(super) fn first_bytes<R: Read + Drop>(alloc: Global, file: R) -> io::Result<Vec<u8>>
    ensures { IfOk result (λ bytes. IfSome (R.remaining file)
        (λ all. bytes.items ≡ take LONGEST_FILE all)) }
{
    let mut bytes = Vec::new(alloc);
    file.take(LONGEST_FILE as u64).read_to_end(&mut bytes)?;
    Ok(bytes)
}
