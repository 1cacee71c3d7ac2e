//! Parts of the bytes of a disk.
ghost use Rattle.std.specs.Prelude.{◌≡◌, ◌≤◌, ◌+◌, ◌-◌, ◌++◌, length, replicate, slice_range, take};
ghost use Rattle.std.specs.Prelude.{drop, vec_capacity};
ghost use Rattle.syn_disk.specs.Disk.{overwritten};

/// Puts these bytes in the place of as many from `at` on.
pub fn overwrite(content: &mut Vec<u8>, at: usize, bytes: &[u8])
    requires { at + length bytes.now ≤ length content.old.items }
    ensures items { content.new.items ≡ overwritten content.old.items at bytes.now }
    ensures room { vec_capacity content.new ≡ vec_capacity content.old }
{
    content[at..at + bytes.len()].copy_from_slice(bytes);
}

/// Copies the bytes of this range of the original to the same range of the copy.
pub(crate) fn copy_range(copy: &mut Vec<u8>, original: &Vec<u8>, from: usize, to: usize)
    requires ordered { from ≤ to }
    requires within { to ≤ length original.now.items }
    requires fits { to ≤ length copy.old.items }
    ensures items { copy.new.items
        ≡ overwritten copy.old.items from (slice_range original.now.items from to) }
    ensures room { vec_capacity copy.new ≡ vec_capacity copy.old }
{
    overwrite(copy, from, &original[from..to]);
}

/// Fills `into` with the bytes from `at` on.
pub fn copy_out(content: &Vec<u8>, at: usize, into: &mut [u8])
    requires { at + length into.old ≤ length content.now.items }
    ensures { into.new ≡ take (length into.old) (drop at content.now.items) }
{
    into.copy_from_slice(&content[at..at + into.len()]);
}

/// Adds zeros, in the room that is there.
pub fn extend(bytes: &mut Vec<u8>, to: usize)
    requires longer { length bytes.old.items ≤ to }
    requires room { to ≤ vec_capacity bytes.old }
    ensures items { bytes.new.items ≡ bytes.old.items ++ replicate (to - length bytes.old.items) 0 }
    ensures room { vec_capacity bytes.old ≤ vec_capacity bytes.new }
{
    bytes.resize(to, 0).unwrap();
}
