//! What a run of the program tells the shell.
ghost use Rattle.std.specs.Prelude.{◌≡◌};
ghost use Rattle.syn_command.specs.Status.{code_of};

use crate::failure::Failure;
use crate::outcome::Outcome;

/// The exit status.
#[derive(Clone, Copy, Debug, PartialEq, Eq)]
pub enum Status {
    /// The command was done, or the help or the version was shown.
    Done,
    /// The command was refused.
    Refused,
    /// The words are no command.
    Usage,
    /// The command ran a session, which is incomplete.
    Incomplete,
    /// The command ran a session, which is complete and has conflicts, or planned one with some.
    Conflicts,
    /// The command planned a session, which has something to do.
    Work,
    /// The command kept two servers the same, and has stopped, since they and the archive do not
    /// belong together. It has the number of `Work`, which only a plan ends with.
    Stopped,
}

impl Status {
    /// The number that the process ends with.
    pub fn code(self) -> u8
        ensures { result ≡ code_of self }
    {
        match self {
            Status::Done => 0,
            Status::Refused => 1,
            Status::Usage => 2,
            Status::Incomplete => 3,
            Status::Conflicts => 4,
            Status::Work => 5,
            Status::Stopped => 5,
        }
    }
}

/// The status of a command that was not done.
impl From<&Failure> for Status {
    ghost use Rattle.syn_command.specs.Status.{status_after};

    ghost from_gives = { λ failure status. status ≡ status_after failure.now };

    fn from(failure: &Failure) -> Status {
        match failure {
            Failure::Stopped(_) => Status::Stopped,
            Failure::Refused(_) | Failure::Line(_) => Status::Refused,
        }
    }
}

/// The status of what a command came to.
impl From<Outcome> for Status {
    ghost use Rattle.syn_command.specs.Status.{status_in};

    ghost from_gives = { λ outcome status. status ≡ status_in outcome };

    fn from(outcome: Outcome) -> Status {
        match outcome {
            Outcome::Done => Status::Done,
            Outcome::Incomplete => Status::Incomplete,
            Outcome::Conflicts => Status::Conflicts,
            Outcome::Work => Status::Work,
        }
    }
}
