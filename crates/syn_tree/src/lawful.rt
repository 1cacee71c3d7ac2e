//! What the types of modes, bytes and paths say of them.
ghost use Rattle.syn_model.specs.Contents.{AreLawfulContents, contents_with};
ghost use Rattle.syn_model.specs.Path.{IsPath};
ghost use Rattle.syn_tree.specs.Modes.{mode_of};

use crate::mode::Mode;
use syn_path::Key;

/// A mode and bytes are what a file may hold.
pub(crate) fn are_contents(mode: Mode, bytes: &[u8])
    ensures { AreLawfulContents (contents_with (mode_of mode) bytes.now) }
{
    let _ = mode.bits();
    let _ = bytes;
}

/// The path of the key is a lawful one.
pub(crate) fn is_path(key: &Key)
    ensures { IsPath key.now }
{
    let _ = key.is_root();
}
