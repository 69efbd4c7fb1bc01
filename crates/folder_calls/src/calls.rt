//! The calls of the system.
ghost use Rattle.std.specs.Prelude.{◌≡◌, ◌≤◌, [], ◌∷◌, Bool, ℕ, IfErr, IfOk, IfSome, IsTrue, List, OnOk, Option, Some, None, drop, false, true, is_some, length, map, string_bytes};
ghost use Rattle.std.specs.Option.{option_map};
ghost use Rattle.name_syncs.specs.Named.{NameWaits, RenameWaits};
ghost use Rattle.name_syncs.specs.Waiting.{Asks, FileAt, FolderAt, IsShutOut, KeepsSynced, ListsLeft, Waiting};
ghost use Rattle.boot_base.specs.Paths.{file_name_of};
ghost use Rattle.folder_calls.specs.Calls.{Inode, IsLockedAt, IsOpenAt, Locking, MayGo, MayGoBut, ReadsSome, inode_of};
ghost use Rattle.folder_calls.specs.Locks.{IfKeepsNone};
ghost use Rattle.folder_calls.specs.Rows.{GoneRow, HasName, KeepsBytesBut, KeepsNames, KeepsNamesBut, KeepsNamesButTwo, MadeRow, MovedRow, WrittenRow};
ghost use Rattle.folder_calls.specs.Ready.{IsRefusal, MaySync, TellsOfFile, TellsOfFolder};
ghost use Rattle.folder_calls.specs.Tree.{Tree, has_link, is_fat_file};

use crate::found::Found;
use name_syncs::FolderFault;
use std::alloc::Global;
use std::io;

/// Who else may hold the same file or folder.
#[derive(Clone, Copy, Debug, PartialEq, Eq)]
pub enum Hold {
    /// Others that hold it so too.
    Shared,
    /// No other run.
    Alone,
}

/// Why a file or a folder isn't locked.
#[derive(Drop)]
pub enum LockFault<L: Drop> {
    /// Another run holds it.
    Taken,
    /// Its file system keeps no locks, and holds nobody up. The lock stands for that.
    KeepsNone(io::Error, L),
    Disk(io::Error),
}

/// How a file is opened that is there.
#[derive(Clone, Copy, Debug, PartialEq, Eq)]
pub enum Access {
    /// To read it, or to list a folder.
    Read,
    /// To write behind what it has.
    Append,
}

/// The calls on what stands below the folder that the program starts in. That one has no name: its path is empty. A path
/// leads over links, but where a call says otherwise. No call waits, and none is interrupted.
pub trait Calls {
    /// An open file or folder. It is closed, and its lock given back, when it is dropped.
    type File: Drop;

    /// That an open file or folder was locked. Who has it has asked for the lock, which goes when the file is closed.
    type Lock: Drop;

    /// Folders of this type tell what stands and what waits. Of the others no clause says so.
    ghost tells: { Bool };

    /// What stands there.
    ghost tree: { Self → Tree };

    /// What waits for the disk.
    ghost waits: { Self → Waiting };

    /// Whether bytes of the file at a path were written since it was synced last.
    ghost written: { Self → List ℕ → Bool };

    /// Which file an open one is.
    ghost inode: { Self.File → Inode };

    /// What a lock is on, and who else may hold that.
    ghost locks: { Self.Lock → Locking };

    /// The folders whose sync has failed and that weren't tried since.
    ghost doubts: { Self → List ℕ → Bool };

    /// What a path leads to: what stands there itself, if that is no link.
    fn find(&self, path: &str) -> io::Result<Option<Found>>
        ensures leads { IfOk result (λ found. IsTrue tells → found ≡ (tree self.now).leads path.now) }
        ensures itself { IfOk result (λ found. IsTrue tells → has_link ((tree self.now).stands path.now) ≡ false
            → found ≡ (tree self.now).stands path.now) }
        ensures folder { IfOk result (λ found. IsTrue tells → TellsOfFolder (waits self.now) path.now found) }
        ensures refused { IfErr result (λ error. IsTrue tells → IsRefusal (waits self.now) error) };

    /// What stands at a path itself, which may be a link.
    fn find_itself(&self, path: &str) -> io::Result<Option<Found>>
        ensures stands { IfOk result (λ found. IsTrue tells → found ≡ (tree self.now).stands path.now) }
        ensures file { IfOk result (λ found. IsTrue tells → TellsOfFile (waits self.now) path.now found) }
        ensures refused { IfErr result (λ error. IsTrue tells → IsRefusal (waits self.now) error) };

    /// What an open file is.
    fn find_open(&self, file: &Self::File) -> io::Result<Found>
        ensures { IfOk result (λ found. IsTrue tells → inode file.now ≡ inode_of found) };

    /// The names in a folder that are UTF-8, and none if it isn't there.
    fn names(&self, alloc: Global, folder: &str) -> io::Result<Vec<String>>
        ensures lists { IfOk result (λ names. IsTrue tells
            → map string_bytes names.items ≡ (tree self.now).names folder.now) }
        ensures left { IfOk result (λ names. IsTrue tells
            → ListsLeft (waits self.now) folder.now (map string_bytes names.items)) }
        ensures refused { IfErr result (λ error. IsTrue tells → IsRefusal (waits self.now) error) };

    /// Opens a file or a folder.
    fn open(&self, path: &str, access: Access) -> io::Result<Self::File>
        ensures { IfOk result (λ file. IsTrue tells → has_link ((tree self.now).stands path.now) ≡ false
            → option_map inode_of ((tree self.now).stands path.now) ≡ Some (inode file)) };

    /// Opens a folder, if one is there.
    fn open_folder(&self, folder: &str) -> io::Result<Option<Self::File>>;

    /// Some of an open file's bytes from that place on, and none at its end.
    fn read(&self, file: &Self::File, at: u64, into: &mut [u8]) -> io::Result<usize>
        ensures within { IfOk result (λ n. n ≤ length into.new) }
        ensures bytes { IfOk result (λ n. IsTrue tells
            → ReadsSome (drop at ((tree self.now).bytes (inode file.now))) into.new n) };

    /// Locks an open file or folder.
    fn lock(&self, file: &Self::File, hold: Hold) -> Result<Self::Lock, LockFault<Self::Lock>>
        ensures held { IfOk result (λ lock. IsTrue tells → locks lock ≡ (inode file.now, hold)) }
        ensures unkept { IfErr result (λ fault. IsTrue tells
            → IfKeepsNone fault (λ lock. locks lock ≡ (inode file.now, hold))) };

    /// Makes an empty file of that mode, to write to it, where nothing stands.
    fn create(&mut self, path: &str, mode: u32) -> io::Result<Self::File>
        ensures row { IfOk result (λ file. IsTrue tells
            → MadeRow (tree self.old) (tree self.new) path.now (inode file)) }
        ensures kept { IsTrue tells → KeepsNamesBut path.now (tree self.old) (tree self.new) }
        ensures waits { IsTrue tells → NameWaits (waits self.old) (waits self.new) path.now };

    /// Writes all of the bytes behind what an open file has.
    fn append(&mut self, file: &mut Self::File, bytes: &[u8]) -> io::Result<()>
        ensures row { OnOk result (IsTrue tells
            → WrittenRow (tree self.old) (tree self.new) (inode file.old) bytes.now) }
        ensures kept { IsTrue tells → KeepsNames (tree self.old) (tree self.new) }
        ensures others { IsTrue tells → KeepsBytesBut (inode file.old) (tree self.old) (tree self.new) }
        ensures same { IsTrue tells → inode file.new ≡ inode file.old }
        ensures quiet { IsTrue tells → waits self.new ≡ waits self.old };

    /// Gives an open file a mode, and tells whether its file system has modes. FAT has none: its driver would only write the
    /// file's entry once more.
    fn set_mode(&mut self, file: &Self::File, found: &Found, mode: u32) -> io::Result<bool>
        requires modes { is_fat_file found.now ≡ false }
        requires open { IsTrue tells → inode file.now ≡ inode_of found.now }
        ensures kept { IsTrue tells → KeepsNames (tree self.old) (tree self.new) }
        ensures quiet { IsTrue tells → waits self.new ≡ waits self.old };

    /// Makes a folder, unless something stands there.
    fn make_folder(&mut self, folder: &str) -> io::Result<()>
        ensures row { OnOk result (IsTrue tells → HasName (tree self.new) folder.now) }
        ensures kept { IsTrue tells → KeepsNamesBut folder.now (tree self.old) (tree self.new) }
        ensures waits { IsTrue tells → NameWaits (waits self.old) (waits self.new) folder.now };

    /// Gives a file another path. What stood there goes: if it is a file, it is one that is held alone.
    fn rename(&mut self, from: &str, to: &str, held: Option<&Self::Lock>) -> io::Result<()>
        requires { IsTrue tells → MayGo (tree self.old) to.now (option_map (λ lock. locks lock.now) held) }
        ensures row { OnOk result (IsTrue tells → MovedRow (tree self.old) (tree self.new) from.now to.now) }
        ensures kept { IsTrue tells → KeepsNamesButTwo from.now to.now (tree self.old) (tree self.new) }
        ensures waits { IsTrue tells → RenameWaits (waits self.old) (waits self.new) from.now to.now };

    /// Gives a file that this run has made, and holds, another path. What stood there goes: if it is a file, it is
    /// one that is held alone, and it shares no clusters with the new one.
    fn put(
        &mut self,
        from: &str,
        to: &str,
        made: &Self::Lock,
        held: Option<&Self::Lock>,
    ) -> io::Result<()>
        requires goes { IsTrue tells
            → MayGoBut (tree self.old) to.now (file_name_of from.now) (option_map (λ lock. locks lock.now) held) }
        requires made { IsTrue tells → IsLockedAt (tree self.old) from.now (locks made.now) }
        ensures row { OnOk result (IsTrue tells → MovedRow (tree self.old) (tree self.new) from.now to.now) }
        ensures kept { IsTrue tells → KeepsNamesButTwo from.now to.now (tree self.old) (tree self.new) }
        ensures waits { IsTrue tells → RenameWaits (waits self.old) (waits self.new) from.now to.now };

    /// Removes what isn't a folder: if it is a file, it is one that is held alone.
    fn unlink(&mut self, path: &str, held: Option<&Self::Lock>) -> io::Result<()>
        requires { IsTrue tells → MayGo (tree self.old) path.now (option_map (λ lock. locks lock.now) held) }
        ensures row { OnOk result (IsTrue tells → GoneRow (tree self.new) path.now) }
        ensures kept { IsTrue tells → KeepsNamesBut path.now (tree self.old) (tree self.new) }
        ensures waits { IsTrue tells → NameWaits (waits self.old) (waits self.new) path.now };

    /// Takes back the name that a file has got in this run, and that isn't synced: nothing more waits for the disk then.
    fn take_back(&mut self, path: &str, held: &Self::Lock) -> io::Result<()>
        requires { IsTrue tells → MayGo (tree self.old) path.now (Some (locks held.now)) }
        ensures row { OnOk result (IsTrue tells → GoneRow (tree self.new) path.now) }
        ensures kept { IsTrue tells → KeepsNamesBut path.now (tree self.old) (tree self.new) }
        ensures quiet { IsTrue tells → waits self.new ≡ waits self.old };

    /// Syncs the file at a path, and tells whether one is there.
    fn sync_file(&mut self, path: &str) -> io::Result<bool>
        ensures tree { IsTrue tells → tree self.new ≡ tree self.old }
        ensures asks { IsTrue tells → Asks (FileAt path.now ∷ []) (waits self.old) (waits self.new) }
        ensures synced { IfOk result (λ is_there. IsTrue tells → is_there ≡ true
            → (waits self.new).files path.now ≡ false) }
        ensures left { IfOk result (λ _. IsTrue tells → (waits self.new).left (FileAt path.now) ≡ false) }
        ensures refused { IfErr result (λ error. IsTrue tells → IsRefusal (waits self.new) error) };

    /// Syncs an open file, which is the one at that path or was.
    fn sync_open(&mut self, path: &str, file: &Self::File) -> io::Result<()>
        ensures tree { IsTrue tells → tree self.new ≡ tree self.old }
        ensures asks { IsTrue tells → Asks (FileAt path.now ∷ []) (waits self.old) (waits self.new) }
        ensures synced { IfOk result (λ _. IsTrue tells → IsOpenAt (tree self.old) path.now (inode file.now)
            → (waits self.new).files path.now ≡ false) }
        ensures whole { IfOk result (λ _. IsTrue tells → IsOpenAt (tree self.old) path.now (inode file.now)
            → written self.new path.now ≡ false) };

    /// Syncs a folder, and tells whether it was there. On FAT what others have left in it comes first: the start and the
    /// length of a file in it are written with the file, and not with the folder.
    fn sync_folder(&mut self, folder: &str) -> Result<bool, FolderFault<io::Error>>
        requires ready { IsTrue tells → MaySync (waits self.old) folder.now }
        ensures tree { IsTrue tells → tree self.new ≡ tree self.old }
        ensures asks { IsTrue tells → Asks (FolderAt folder.now ∷ []) (waits self.old) (waits self.new) }
        ensures synced { IfOk result (λ is_there. IsTrue tells → is_there ≡ true
            → (waits self.new).folders folder.now ≡ false) }
        ensures left { IfOk result (λ is_there. IsTrue tells → is_there ≡ true
            → (waits self.new).left (FolderAt folder.now) ≡ false) }
        ensures gone { IfOk result (λ is_there. IsTrue tells → is_there ≡ false
            → (waits self.new).opens (FolderAt folder.now) ≡ false) }
        ensures unable { IfErr result (λ failure. IsTrue tells → failure.syncs_none ≡ true
            → (waits self.new).syncs folder.now ≡ false) }
        ensures refused { IfErr result (λ failure. IsTrue tells → failure.is_refused ≡ true
            → IsShutOut (waits self.new)) };

    /// Behind a failed sync: makes names in a folder until it has grown or the system makes none, and takes them back. FAT's
    /// driver reads the folder's chain in the table for that. If that doesn't know the folder's last cluster, since its own write has
    /// failed, the driver makes the file system read-only: so no later command takes for saved what the disk hasn't got.
    fn try_folder(&mut self, folder: &str)
        ensures quiet { IsTrue tells → waits self.new ≡ waits self.old }
        ensures tried { IsTrue tells → doubts self.new folder.now ≡ false };

    /// Whether the file system of a path that is gone can be written: a rename of the name to itself, which changes nothing.
    fn try_name(&self, path: &str) -> io::Result<()>;

    /// Writes all of the bytes to standard output.
    fn print(&self, bytes: &[u8]) -> io::Result<()>;

    /// Some of the next bytes of standard input, and none at its end.
    fn input(&self, into: &mut [u8]) -> io::Result<usize>
        ensures { IfOk result (λ n. n ≤ length into.new) };
}
