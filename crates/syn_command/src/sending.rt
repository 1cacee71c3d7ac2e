//! Asks a server for the edits of an import.
ghost use Rattle.std.specs.Prelude.{◌≡◌, ◌≢◌, ◌+◌, length, map, IfErr, IfOk, OnOk};
ghost use Rattle.syn_command.specs.Sent.{AreMadeInPart, AreMadeInTurn};
ghost use Rattle.syn_tree.specs.Edits.{edit_of};
ghost use Rattle.syn_user.specs.States.{state_of};

use crate::error::CommandError;
use crate::teller::{Teller, edit_line};
use std::alloc::Global;
use std::io::{Read, Write};
use syn_refusal::Refusal;
use syn_tree::Edit;
use syn_user::UserConnection;

/// Asks a server for the edits, as edits of the user, and answers the position after them. The
/// first is asked of a replica that has the position. Each is told as it is made.
///
/// Refused as the server refuses an edit: then those before it stand. Refused 13 where the answer
/// to one shows that somebody else edits the replica: then that one stands, too.
pub fn send_edits<R: Read, W: Write, E: Write>(
    alloc: Global,
    connection: &mut UserConnection<R, W>,
    user: u32,
    position: u64,
    edits: Vec<Edit>,
    teller: &mut Teller<'_, E>,
) -> Result<u64, CommandError>
    ensures last { IfOk result (λ last. last ≡ position + length edits.items) }
    ensures made { OnOk result (AreMadeInTurn user
        (state_of R.remaining W.contents connection.old) position (map edit_of edits.items)
        (state_of R.remaining W.contents connection.new)) }
    ensures stopped { IfErr result (AreMadeInPart user
        (state_of R.remaining W.contents connection.old) position (map edit_of edits.items)
        (state_of R.remaining W.contents connection.new)) }
{
    let sent = send_each(alloc, connection, user, position, edits, teller);
    teller.end();
    sent
}

/// The same, with the line of the counts left standing.
fn send_each<R: Read, W: Write, E: Write>(
    alloc: Global,
    connection: &mut UserConnection<R, W>,
    user: u32,
    position: u64,
    edits: Vec<Edit>,
    teller: &mut Teller<'_, E>,
) -> Result<u64, CommandError>
    ensures last { IfOk result (λ last. last ≡ position + length edits.items) }
    ensures made { OnOk result (AreMadeInTurn user
        (state_of R.remaining W.contents connection.old) position (map edit_of edits.items)
        (state_of R.remaining W.contents connection.new)) }
    ensures stopped { IfErr result (AreMadeInPart user
        (state_of R.remaining W.contents connection.old) position (map edit_of edits.items)
        (state_of R.remaining W.contents connection.new)) }
{
    let all = edits.len();
    let mut count: usize = 0;
    let mut last = position;
    for edit in edits {
        let line = edit_line(alloc, &edit)?;
        let made = connection.edit(alloc, user, edit)?;
        count = count.saturating_add(1);
        teller.tell(&line, count, all, "edits are made");
        last = next_position(last, made)?;
    }
    Ok(last)
}

/// The position that an edit is answered with, which has to be the one after the last.
///
/// Refused 13 where it is another: somebody else edited the replica.
fn next_position(last: u64, made: u64) -> Result<u64, CommandError>
    ensures next { IfOk result (λ next. next ≡ last + 1) }
    ensures made { OnOk result (made ≡ last + 1) }
    ensures refused { IfErr result (λ e. (e ≡ CommandError.Refused Refusal.Touched)
        × (made ≢ last + 1)) }
{
    if last < made && made - last == 1 {
        Ok(made)
    } else {
        Err(CommandError::Refused(Refusal::Touched))
    }
}
