//! What the types of numbers and bytes say of them.
ghost use Rattle.std.specs.Prelude.{◌<◌, ◌^◌};
ghost use Rattle.syn_model.specs.Event.{AreBytes};

/// Eight bytes spell it.
pub fn is_long(number: u64)
    ensures { number < 2 ^ 64 }
{
    let _ = number;
}

/// Four bytes spell it.
pub fn is_short(number: u32)
    ensures { number < 2 ^ 32 }
{
    let _ = number;
}

/// Each byte is below 256.
pub fn are_bytes(bytes: &[u8])
    ensures { AreBytes bytes.now }
{
    let _ = bytes;
}
