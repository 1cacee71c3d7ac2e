//! Tells why an archive and two sides do not belong together, or marks and a replica.

use std::io::Write;
use syn_pair::{Cause, FolderMismatch, MarksMismatch, Mismatch};
use syn_path::Side;

/// The way on where an archive or a replica was lost or put back.
const WAY_ON: &str = "syn: to go on with both as they are: syn format archive PAIR ARCHIVE --after \
    LEFT RIGHT (it removes nothing)";

/// The way on where a folder's replica was lost or put back.
const ANEW: &str = "syn: to go on with both as they are: syn reconcile --anew FOLDER FILE USER (it \
    removes nothing)";

/// Tells what was expected and what was found, and how to go on.
pub(crate) fn tell_mismatch<E: Write>(mismatch: Mismatch, errors: &mut E) {
    match mismatch {
        Mismatch::OneReplica => {
            let _ = writeln!(
                errors,
                "syn: both sides are one replica: a copy that is to be a side of its own is made \
                    without its .id"
            );
        }
        Mismatch::OtherPair(side) => {
            let _ = writeln!(errors, "syn: the {} is of another pair", name_of(side));
        }
        Mismatch::LastSession(side) => {
            let _ = writeln!(
                errors,
                "syn: the {} has begun the last session that there is: export it, format \
                    it again, and import what was exported",
                name_of(side)
            );
        }
        Mismatch::Of(side, cause) => {
            tell_cause(name_of(side), "the archive knows", cause, errors);
            let _ = writeln!(errors, "{WAY_ON}");
        }
    }
}

/// Tells why the marks of a folder are not of the replica, and how to go on.
pub(crate) fn tell_marks_mismatch<E: Write>(mismatch: MarksMismatch, errors: &mut E) {
    match mismatch {
        MarksMismatch::Parted => {
            let _ = writeln!(
                errors,
                "syn: an older copy of the replica was found beside the folder's marks before"
            );
        }
        MarksMismatch::Of(cause) => tell_cause("replica", "the marks are of", cause, errors),
    }
    let _ = writeln!(errors, "{ANEW}");
}

/// Tells why the marks are not of the folder, and how to go on.
pub(crate) fn tell_other_folder<E: Write>(mismatch: FolderMismatch, errors: &mut E) {
    let _ = writeln!(
        errors,
        "syn: this is not the folder of its marks: {mismatch}"
    );
    let _ = writeln!(errors, "{ANEW}");
}

/// Tells that the program of a side's server is of an older version.
pub(crate) fn tell_older_server<E: Write>(side: Side, errors: &mut E) {
    let _ = writeln!(
        errors,
        "syn: the program that serves the {} is of an older version: start the new one there",
        name_of(side)
    );
}

/// Tells the cause at the replica of this name, which was to be the one that is known.
fn tell_cause<E: Write>(name: &str, known: &str, cause: Cause, errors: &mut E) {
    let _ = match cause {
        Cause::OlderArchive { archive, side } => writeln!(
            errors,
            "syn: the archive is older than the {name}: its last session is {archive}, and \
                the replica has begun session {side}"
        ),
        Cause::OlderThanKnown { archive, known } => writeln!(
            errors,
            "syn: the archive is older than what is kept beside it: its last session is {archive}, \
                and the {name} had begun session {known}"
        ),
        Cause::OlderKnown { known, side } => writeln!(
            errors,
            "syn: what is kept beside the archive is older than it: the {name} had begun \
                session {known}, and has replaced something in session {side}"
        ),
        Cause::Unknown { archive, side } => writeln!(
            errors,
            "syn: nothing is kept of the {name} beside the archive, whose last session is \
                {archive}; the replica has begun session {side}"
        ),
        Cause::OtherReplica => writeln!(errors, "syn: the {name} is not the one that {known}"),
        Cause::OlderSession { known, side } => writeln!(
            errors,
            "syn: the {name} is an older copy: it had begun session {known}, and now the \
                last is {side}"
        ),
        Cause::OlderReplacement => writeln!(
            errors,
            "syn: the {name} is an older copy: it lacks what a session put into it"
        ),
        Cause::OlderPosition { known, side } => writeln!(
            errors,
            "syn: the {name} is an older copy: it had {known} events, and has {side}"
        ),
        Cause::OtherEvent { place } => writeln!(
            errors,
            "syn: the {name} is an older copy that was edited: its event {place} is \
                another one than it was"
        ),
    };
}

/// What the replica of the side is called.
fn name_of(side: Side) -> &'static str {
    match side {
        Side::Left => "left replica",
        Side::Right => "right replica",
    }
}
