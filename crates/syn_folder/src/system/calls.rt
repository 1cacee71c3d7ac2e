//! What a replacement at one path of a folder asks of the system.
ghost use Rattle.std.specs.Prelude.{◌≡◌, true, Bool, List, Ok, IsSome};
ghost use Rattle.syn_folder.specs.Moments.{Closes, Compares, Moment, Places, Prepares, Returns};
ghost use Rattle.syn_folder.specs.Moments.{Takes};
ghost use Rattle.syn_folder.specs.Places.{IsAsRead};
ghost use Rattle.syn_folder.specs.Stages.{IsUntouched, MayPlace, MayReturn, MayClose};
ghost use Rattle.syn_folder.specs.Stages.{after_prepare, after_take, after_compare, after_place};
ghost use Rattle.syn_folder.specs.Stages.{after_return, after_close, after_leave};
ghost use Rattle.syn_folder.specs.declared.system.looks.Seen.{Seen as Look};
ghost use Rattle.syn_folder.specs.declared.system.stage.Stage.{Stage as Progress};
ghost use Rattle.syn_folder.specs.declared.system.stage.Stage.TheVariants.{Noted, Moved};
ghost use Rattle.syn_model.specs.Path.{Path as ModelPath};
ghost use Rattle.syn_model.specs.Tree.{Tree as Pairs};

use crate::system::stage::Stage;
use std::alloc::Global;
use std::io;
use syn_path::Path;

/// The calls of the system that a replacement at one path of a folder is made of. Other programs
/// may edit the folder between any two of them, but not what lies in its `.syn`.
///
/// No call removes or overwrites anything that stands in the folder: what stands at the path leaves
/// it by one rename into `.syn/kept`, and what is put there is put where nothing is. The conditions
/// of the calls are their order: nothing is moved before a note stands, and where something was
/// read nothing is put in its place before what was moved is known to be that.
pub(super) trait PlaceCalls {
    ghost stage: { Self → Progress };

    /// Something is to stand at the path.
    ghost is_wanted: { Self → Bool };

    /// What was read of the folder.
    ghost tree: { Self → Pairs };

    /// The path.
    ghost path: { Self → ModelPath };

    /// What was seen as what was moved was looked at.
    ghost seen: { Self → List Look };

    /// What is at the path, and what `.syn` has for it.
    ghost moment: { Self → Moment };

    /// The path.
    fn path(&self) -> &Path
        ensures { result.now ≡ path self.now };

    /// How far it has come.
    fn stage(&self) -> Stage
        ensures { result ≡ stage self.now };

    /// Whether something is to stand at the path in the end.
    fn is_wanted(&self) -> bool
        ensures { result ≡ is_wanted self.now };

    /// Looks at what stands at and below the path, and answers whether it is what was read.
    ///
    /// An error where the system refuses it, or memory is refused.
    fn looks_as_read(&self, alloc: Global) -> io::Result<bool>;

    /// Writes what is wanted into `.syn/new`, and, where something was read at the path, makes
    /// room for it in `.syn/kept` and writes a note of it. All of that is synced.
    ///
    /// An error where the system refuses it, or memory is refused.
    fn prepare(&mut self, alloc: Global) -> io::Result<()>
        requires { IsUntouched (stage self.old) }
        ensures stage { stage self.new ≡ after_prepare (stage self.old) result }
        ensures folder { Prepares (is_wanted self.old) (stage self.old) result (moment self.old)
            (moment self.new) }
        ensures asked { (tree self.new ≡ tree self.old) × (path self.new ≡ path self.old) }
        ensures wanted { is_wanted self.new ≡ is_wanted self.old };

    /// Moves what stands at the path into `.syn/kept` by one rename; false where nothing is there.
    ///
    /// An error where the system refuses it, or memory is refused.
    fn take(&mut self, alloc: Global) -> io::Result<bool>
        requires { stage self.old ≡ Noted }
        ensures stage { stage self.new ≡ after_take (stage self.old) result }
        ensures folder { Takes result (moment self.old) (moment self.new) }
        ensures asked { (tree self.new ≡ tree self.old) × (path self.new ≡ path self.old) }
        ensures wanted { is_wanted self.new ≡ is_wanted self.old };

    /// Looks at what was moved, and reads it. Answers whether it is what was read at the path.
    ///
    /// An error where the system refuses it, or memory is refused.
    fn compare(&mut self, alloc: Global) -> io::Result<bool>
        requires order { stage self.old ≡ Moved }
        requires lies { IsSome (moment self.old).kept }
        ensures read { result ≡ Ok true → IsAsRead (tree self.new) (path self.new) (seen self.new) }
        ensures stage { stage self.new ≡ after_compare (stage self.old) result }
        ensures folder { Compares result (moment self.old) (moment self.new) }
        ensures asked { (tree self.new ≡ tree self.old) × (path self.new ≡ path self.old) }
        ensures wanted { is_wanted self.new ≡ is_wanted self.old };

    /// Puts what is wanted at the path; false where something stands there, or the directory that
    /// the path is in is gone.
    ///
    /// An error where the system refuses it, or memory is refused.
    fn place(&mut self, alloc: Global) -> io::Result<bool>
        requires { MayPlace (is_wanted self.old) (stage self.old) }
        ensures stage { stage self.new ≡ after_place (stage self.old) result }
        ensures folder { Places result (moment self.old) (moment self.new) }
        ensures asked { (tree self.new ≡ tree self.old) × (path self.new ≡ path self.old) }
        ensures seen { seen self.new ≡ seen self.old }
        ensures wanted { is_wanted self.new ≡ is_wanted self.old };

    /// Puts what was moved back to the path; false where something stands there, or the directory
    /// that the path is in is gone.
    ///
    /// An error where the system refuses it, or memory is refused.
    fn put_back(&mut self, alloc: Global) -> io::Result<bool>
        requires order { MayReturn (stage self.old) }
        requires lies { IsSome (moment self.old).kept }
        ensures stage { stage self.new ≡ after_return (stage self.old) result }
        ensures folder { Returns result (moment self.old) (moment self.new) }
        ensures wanted { is_wanted self.new ≡ is_wanted self.old };

    /// Syncs the directories in which names came or went, and removes the note then.
    ///
    /// An error where the system refuses it, or memory is refused.
    fn close(&mut self, alloc: Global) -> io::Result<()>
        requires { MayClose (is_wanted self.old) (stage self.old) }
        ensures stage { stage self.new ≡ after_close (stage self.old) result }
        ensures folder { Closes result (moment self.old) (moment self.new) }
        ensures asked { (tree self.new ≡ tree self.old) × (path self.new ≡ path self.old) }
        ensures seen { seen self.new ≡ seen self.old }
        ensures wanted { is_wanted self.new ≡ is_wanted self.old };

    /// The same where what was moved stays in `.syn/kept`, since something else stands at the path.
    /// Both are told.
    ///
    /// An error where the system refuses it, or memory is refused.
    fn leave(&mut self, alloc: Global) -> io::Result<()>
        requires { MayReturn (stage self.old) }
        ensures stage { stage self.new ≡ after_leave (stage self.old) result }
        ensures folder { Closes result (moment self.old) (moment self.new) }
        ensures wanted { is_wanted self.new ≡ is_wanted self.old };
}
