//! A connection to a served replica, over which it is asked what a session asks of it.
ghost use Rattle.std.specs.Prelude.{◌≡◌, ◌<◌, ◌^◌, [], IfErr, IfNone, IfOk, IfSome, false};
ghost use Rattle.syn_machine.specs.Side.{IsLawfulBody, ListAt, Piece, Refused};
ghost use Rattle.syn_message.specs.Replies.{reply_of};
ghost use Rattle.syn_message.specs.Requests.{IsLawfulRequestMessage, request_spelling, request_of};
ghost use Rattle.syn_model.specs.Path.{IsPath};
ghost use Rattle.syn_model.specs.Refusal as why;
ghost use Rattle.syn_user.specs.Sides.{ArePiecesOf, IsHeard, IsListing, IsRefusedFor, IsReplied};
ghost use Rattle.syn_user.specs.Sides.{IsTouchedSince, IsUnanswered, IsUnheard, IsUnlisted};
ghost use Rattle.syn_user.specs.Sides.{NoPiece, NoPieces, NoPosition, NoTree, ShowsTree};
ghost use Rattle.syn_user.specs.Sides.{TellsPosition, message_with, first_line};
ghost use Rattle.syn_user.specs.Sides.{root_from, side_state};
ghost use Rattle.syn_user.specs.inner.Parts.{is_refusal, side_writer};

use crate::connection::number_after;
use crate::error::UserError;
use crate::gathered::Gathered;
use std::alloc::Global;
use std::io::{Read, Write};
use syn_link::Connection;
use syn_message::{Reply, Request, RequestMessage, decode_reply, encode_request, message_laws};
use syn_model::{is_long, is_short};
use syn_path::Path;
use syn_refusal::Refusal;
use syn_tree::Tree;

/// The session that the requests are of. A replica tells what it has to each, whichever began last.
pub(crate) const SESSION: u64 = 1;

/// The most pieces of a tree: one has 32,768 bytes, and a tree at most 526,336.
const MOST_PIECES: u32 = 17;

/// How often the whole tree is begun anew, where somebody edits meanwhile.
pub(crate) const MOST_TRIES: u32 = 100;

/// A connection to a served replica. Requests are numbered from 0. No session begins by them, and
/// they change nothing.
#[derive(Drop)]
pub struct SideConnection<R, W> {
    connection: Connection<R, W>,
    next: u32,
}

impl<R: Read, W: Write> SideConnection<R, W> {
    /// A connection on which nothing was asked yet. It takes no memory.
    pub fn new(alloc: Global, reader: R, writer: W) -> SideConnection<R, W>
        ensures { side_state R.remaining W.contents result
            ≡ first_line (R.remaining reader) (W.contents writer) }
    {
        SideConnection {
            connection: Connection::new(alloc, reader, writer),
            next: 0,
        }
    }

    /// Asks for the names in the directory: the reply tells them with their marks, or that no
    /// directory is there.
    ///
    /// Refused as the replica refuses it; 9 where the connection comes to its end, or a read or the
    /// write fails; 11 where memory is refused; 21 and 22 where a frame with such a length comes;
    /// and 23 where what comes is no reply to it. After all but the first it is not to be used.
    pub fn list(&mut self, alloc: Global, path: &Path) -> Result<Reply, UserError>
        ensures replied { IfOk result (λ reply.
            IsReplied (side_state R.remaining W.contents self.old)
            (side_state R.remaining W.contents self.new) (ListAt path.now) (reply_of reply)) }
        ensures listing { IfOk result (λ reply. IsListing (reply_of reply)) }
        ensures refused { IfErr result
            (IsRefusedFor (side_state R.remaining W.contents self.old)
            (side_state R.remaining W.contents self.new) (ListAt path.now)) }
        ensures unlisted { IfErr result
            (IsUnlisted (side_state R.remaining W.contents self.old)
            (side_state R.remaining W.contents self.new) path.now) }
    {
        let path = path.copy(alloc)?;
        let reply = self.ask(alloc, Request::List { path })?;
        match reply {
            Reply::Listed { .. } | Reply::NotDir { .. } => Ok(reply),
            Reply::Refused(why) => Err(UserError::Refused(why)),
            _ => Err(UserError::BadMessage),
        }
    }

    /// The whole tree, and the position at which the replica had it. Where somebody edits while its
    /// pieces come, it is begun anew.
    ///
    /// Refused as `list` is, 23 where the pieces that come spell no tree, and 13 where somebody
    /// edited each of a hundred times.
    pub fn tree(&mut self, alloc: Global) -> Result<(u64, Tree), UserError>
        ensures shown { IfOk result (λ found. ShowsTree found.0 found.1
            (side_state R.remaining W.contents self.new)
            (side_state R.remaining W.contents self.old)) }
        ensures refused { IfErr result (λ error.
            NoTree (side_state R.remaining W.contents self.new) error 0
            (side_state R.remaining W.contents self.old)) }
    {
        for _tried in 0..MOST_TRIES {
            let position = self.position(alloc)?;
            if let Some(tree) = self.tree_at(alloc, position)? {
                return Ok((position, tree));
            }
        }
        Err(UserError::Refused(Refusal::Touched))
    }

    /// The position of the replica. It is refused as `list` is.
    pub fn position(&mut self, alloc: Global) -> Result<u64, UserError>
        ensures told { IfOk result (λ position. TellsPosition position
            (side_state R.remaining W.contents self.old)
            (side_state R.remaining W.contents self.new)) }
        ensures refused { IfErr result
            (NoPosition (side_state R.remaining W.contents self.old)
            (side_state R.remaining W.contents self.new)) }
    {
        match self.list(alloc, &Path::root(alloc))? {
            Reply::Listed { position, .. } => Ok(position),
            _ => Err(UserError::BadMessage),
        }
    }

    /// The whole tree that the replica had at the position; none where it was edited since.
    ///
    /// Refused as `list` is, and 23 where the pieces that come spell no tree.
    fn tree_at(&mut self, alloc: Global, position: u64) -> Result<Option<Tree>, UserError>
        ensures tree { IfOk result (λ found. IfSome found (ArePiecesOf position
            (side_state R.remaining W.contents self.old)
            (side_state R.remaining W.contents self.new))) }
        ensures none { IfOk result (λ found. IfNone found (IsTouchedSince position
            (side_state R.remaining W.contents self.old)
            (side_state R.remaining W.contents self.new))) }
        ensures refused { IfErr result (NoPieces position
            (side_state R.remaining W.contents self.old)
            (side_state R.remaining W.contents self.new)) }
    {
        let mut gathered = Gathered::new(alloc);
        for _count in 0..MOST_PIECES {
            let Some((total, bytes)) = self.piece(alloc, position, gathered.offset())? else {
                return Ok(None);
            };
            gathered.take(total, &bytes)?;
            if gathered.is_whole() {
                return Ok(Some(gathered.tree(alloc)?));
            }
        }
        Err(UserError::BadMessage)
    }

    /// The piece of the whole tree from that byte on, with the length of all; none where the
    /// replica was edited since the position. It is refused as `list` is.
    fn piece(
        &mut self,
        alloc: Global,
        position: u64,
        offset: u32,
    ) -> Result<Option<(u32, Vec<u8>)>, UserError>
        ensures piece { IfOk result (λ found. IfSome found (λ piece.
            IsReplied (side_state R.remaining W.contents self.old)
            (side_state R.remaining W.contents self.new) (root_from position offset)
            (Piece piece.0 piece.1.items))) }
        ensures none { IfOk result (λ found. IfNone found
            (IsReplied (side_state R.remaining W.contents self.old)
            (side_state R.remaining W.contents self.new) (root_from position offset)
            (Refused why.Touched))) }
        ensures refused { IfErr result
            (NoPiece position offset (side_state R.remaining W.contents self.old)
            (side_state R.remaining W.contents self.new)) }
    {
        is_long(position);
        is_short(offset);
        let request = Request::Fetch {
            path: root(alloc),
            since: position,
            offset,
        };
        match self.ask(alloc, request)? {
            Reply::Piece { total, bytes } => Ok(Some((total, bytes))),
            Reply::Refused(Refusal::Touched) => Ok(None),
            Reply::Refused(why) => Err(UserError::Refused(why)),
            _ => Err(UserError::BadMessage),
        }
    }

    /// Sends the request, and answers the reply to it.
    fn ask(&mut self, alloc: Global, request: Request) -> Result<Reply, UserError>
        requires { IsLawfulBody (request_of request) }
        ensures replied { IfOk result (λ reply.
            IsReplied (side_state R.remaining W.contents self.old)
            (side_state R.remaining W.contents self.new) (request_of request) (reply_of reply)) }
        ensures unanswered { IfErr result
            (IsUnanswered (side_state R.remaining W.contents self.old)
            (side_state R.remaining W.contents self.new) (request_of request)) }
        ensures refused { IfErr result (λ error. is_refusal error ≡ false) }
    {
        let body = body_of(alloc, self.next, request)?;
        match self.connection.send(&body) {
            Ok(()) => {}
            Err(_) => return Err(UserError::Device),
        }
        self.hear(alloc)
    }

    /// The reply to the request that was sent, in the next frame. The next number follows.
    fn hear(&mut self, alloc: Global) -> Result<Reply, UserError>
        ensures heard { IfOk result (λ reply.
            IsHeard (side_state R.remaining W.contents self.old)
            (side_state R.remaining W.contents self.new) (reply_of reply)) }
        ensures silent { side_writer self.new ≡ side_writer self.old }
        ensures unheard { IfErr result (IsUnheard (side_state R.remaining W.contents self.old)
            (side_state R.remaining W.contents self.new)) }
        ensures refused { IfErr result (λ error. is_refusal error ≡ false) }
    {
        message_laws();
        let number = self.next;
        is_short(number);
        self.next = number_after(number);
        let Some(body) = self.connection.receive(alloc)? else {
            return Err(UserError::Device);
        };
        match decode_reply(alloc, &body)? {
            Some(answered) if answered.session == SESSION && answered.number == number => {
                Ok(answered.reply)
            }
            _ => Err(UserError::BadMessage),
        }
    }
}

/// The body of the request. Refused 11 where memory is refused.
fn body_of(alloc: Global, number: u32, request: Request) -> Result<Vec<u8>, UserError>
    requires { IsLawfulBody (request_of request) }
    ensures lawful { IfOk result
        (λ body. IsLawfulRequestMessage (message_with number (request_of request))) }
    ensures body { IfOk result (λ body.
        body.items ≡ request_spelling (message_with number (request_of request))) }
    ensures memory { IfErr result (λ error. error ≡ UserError.Memory) }
    ensures refused { IfErr result (λ error. is_refusal error ≡ false) }
{
    let asked = RequestMessage {
        session: SESSION,
        number,
        request,
    };
    Ok(encode_request(alloc, &asked)?)
}

/// The root, whose path is lawful.
fn root(alloc: Global) -> Path
    ensures lawful { IsPath result }
    ensures root { result ≡ [] }
{
    let root = Path::root(alloc);
    let _ = root.names();
    root
}
