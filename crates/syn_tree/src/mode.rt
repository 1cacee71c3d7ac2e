//! The mode of a file.
ghost use Rattle.std.specs.Prelude.{◌≡◌, ◌≢◌, ◌<◌, ◌+◌, ◌%◌, ◌↔◌, IsTrue, Some, IfSome, IfNone};
ghost use Rattle.syn_model.specs.Contents.{IsMode};
ghost use Rattle.syn_tree.specs.Modes.{access_of, mode_digits, mode_of};

use std::fmt;

/// What some users may do with a file.
#[derive(Clone, Copy, Debug, PartialEq, Eq)]
pub struct AccessRights {
    /// They may read it.
    pub read: bool,
    /// They may write it.
    pub write: bool,
    /// They may execute it.
    pub execute: bool,
}

impl AccessRights {
    /// What the lowest three bits say: 4 for reading, 2 for writing and 1 for executing.
    fn of(bits: u16) -> AccessRights
        ensures { access_of result ≡ bits % 8 }
    {
        AccessRights {
            read: bits % 8 >= 4,
            write: bits % 4 >= 2,
            execute: bits % 2 == 1,
        }
    }

    /// What an octal digit says; none where it is none.
    fn parse(digit: u8) -> Option<AccessRights>
        ensures some { IfSome result (λ access. digit ≡ 48 + access_of access) }
        ensures none { IfNone result ((access : AccessRights) → digit ≢ 48 + access_of access) }
    {
        match digit {
            b'0'..=b'7' => Some(AccessRights::of((digit - b'0') as u16)),
            _ => None,
        }
    }

    /// The three bits.
    fn bits(self) -> u16
        ensures same { result ≡ access_of self }
        ensures few { result < 8 }
    {
        4 * self.read as u16 + 2 * self.write as u16 + self.execute as u16
    }
}

/// The mode of a file: its nine permission bits, as POSIX has them.
#[derive(Clone, Copy, Debug, PartialEq, Eq)]
pub struct Mode {
    /// What its owner may do.
    pub owner: AccessRights,
    /// What the members of its group may do.
    pub group: AccessRights,
    /// What all others may do.
    pub others: AccessRights,
}

impl Mode {
    /// That of a new file, octal 644: its owner reads and writes it, and all others read it.
    pub const NEW_FILE: Mode = Mode {
        owner: AccessRights {
            read: true,
            write: true,
            execute: false,
        },
        group: AccessRights {
            read: true,
            write: false,
            execute: false,
        },
        others: AccessRights {
            read: true,
            write: false,
            execute: false,
        },
    };

    /// The mode with these bits, of 0 to 511; none where there are more.
    pub fn new(bits: u16) -> Option<Mode>
        ensures some { IfSome result (λ mode. mode_of mode ≡ bits) }
        ensures none { IfNone result (¬ IsMode bits) }
        ensures lawful { IfSome result (λ mode. IsMode (mode_of mode)) }
    {
        if bits >= 512 {
            return None;
        }
        Some(Mode {
            owner: AccessRights::of(bits / 64),
            group: AccessRights::of(bits / 8),
            others: AccessRights::of(bits),
        })
    }

    /// The mode that three octal digits say, as it is printed; none where the text is no such
    /// digits.
    pub fn parse(text: &str) -> Option<Mode>
        ensures some { IfSome result (λ mode. text.now ≡ mode_digits (mode_of mode)) }
        ensures none { IfNone result ((mode : Mode) → text.now ≢ mode_digits (mode_of mode)) }
    {
        let [owner, group, others] = text.as_bytes() else {
            return None;
        };
        Some(Mode {
            owner: AccessRights::parse(*owner)?,
            group: AccessRights::parse(*group)?,
            others: AccessRights::parse(*others)?,
        })
    }

    /// Its nine bits: those of the owner are the highest.
    pub fn bits(self) -> u16
        ensures same { result ≡ mode_of self }
        ensures lawful { IsMode result }
    {
        64 * self.owner.bits() + 8 * self.group.bits() + self.others.bits()
    }

    /// Whether both are one mode.
    pub fn is_same(self, other: Mode) -> bool
        ensures { IsTrue result ↔ (mode_of self ≡ mode_of other) }
    {
        self.bits() == other.bits()
    }
}

/// What the type of a mode says: it has nine bits.
pub fn is_mode(mode: Mode)
    ensures { IsMode (mode_of mode) }
{
    let _ = mode.bits();
}

/// Three octal digits: of the owner, of the group and of all others.
impl fmt::Display for Mode {
    ghost output = { λ mode. Some (mode_digits (mode_of mode)) };

    fn fmt<W: fmt::Write>(&self, f: &mut fmt::Formatter<W>) -> fmt::Result {
        let bits = self.bits();
        write!(f, "{}{}{}", bits / 64, bits / 8 % 8, bits % 8)
    }
}
