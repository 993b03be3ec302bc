//! A store of files.
ghost use Rattle.std.specs.Prelude.{◌≡◌, ◌⊎◌, ℕ, [], List, Option, Some, None, option_map, IfOk, OnOk, OnErr, string_bytes};
ghost use Rattle.rontool_files.specs.Thing.{Thing, bytes_of, mode_of, kind_of, SameBut, Moves};
ghost use Rattle.rontool_files.specs.Thing.Thing.{link};

use std::alloc::Global;
use std::io;

/// What kind of thing stands at a path.
#[derive(Clone, Copy, Debug, PartialEq, Eq)]
pub enum Kind {
    File,
    Folder,
    Link,
    Other,
}

/// A store of files, by their paths. A call that fails changes nothing but what it says.
pub trait Store {
    /// Whether the store tells what stands at its paths.
    ghost told: { Type 0 };

    /// What stands at each path, where the store tells it.
    ghost stands: { Self → List ℕ → Option Thing };

    /// That what a file holds outlasts a loss of power.
    ghost synced: { Self → List ℕ → Type 0 };

    /// How often something was changed.
    ghost changes: { Self → ℕ };

    /// That a call of it has failed.
    ghost failed: { Self → Type 0 };

    /// The kind of what stands at a path. A link isn't followed. Where nothing stands, `NotFound`.
    fn kind(&mut self, path: &str) -> io::Result<Kind>
        ensures same { told → stands self.new ≡ stands self.old }
        ensures untouched { changes self.new ≡ changes self.old }
        ensures kind { told → IfOk result (λ kind. option_map kind_of (stands self.old path.now) ≡ Some kind) }
        ensures failure { OnErr result (failed self.new) }
        ensures after { failed self.old → failed self.new };

    /// The path that a link leads to, as it is seen from where the link's own path is.
    fn target(&mut self, alloc: Global, path: &str) -> io::Result<String>
        ensures same { told → stands self.new ≡ stands self.old }
        ensures untouched { changes self.new ≡ changes self.old }
        ensures target { told → IfOk result (λ to. stands self.old path.now ≡ Some (link (string_bytes to))) }
        ensures failure { OnErr result (failed self.new) }
        ensures after { failed self.old → failed self.new };

    /// A text for what a path leads to through all links, the same for each path that leads there.
    fn real(&mut self, alloc: Global, path: &str) -> io::Result<String>
        ensures same { told → stands self.new ≡ stands self.old }
        ensures untouched { changes self.new ≡ changes self.old }
        ensures failure { OnErr result (failed self.new) }
        ensures after { failed self.old → failed self.new };

    /// What a file holds.
    fn read(&mut self, alloc: Global, path: &str) -> io::Result<Vec<u8>>
        ensures same { told → stands self.new ≡ stands self.old }
        ensures untouched { changes self.new ≡ changes self.old }
        ensures bytes { told → IfOk result (λ bytes. bytes_of (stands self.old path.now) ≡ Some bytes.items) }
        ensures failure { OnErr result (failed self.new) }
        ensures after { failed self.old → failed self.new };

    /// The paths of what stands in a folder, in no order.
    fn entries(&mut self, alloc: Global, path: &str) -> io::Result<Vec<String>>
        ensures same { told → stands self.new ≡ stands self.old }
        ensures untouched { changes self.new ≡ changes self.old }
        ensures failure { OnErr result (failed self.new) }
        ensures after { failed self.old → failed self.new };

    /// Makes a file that holds nothing, where nothing stood. Where it fails, such a file may be there; what stood there
    /// stays.
    fn create(&mut self, path: &str) -> io::Result<()>
        ensures others { told → SameBut path.now (stands self.old) (stands self.new) }
        ensures free { told → OnOk result (stands self.old path.now ≡ None) }
        ensures made { told → OnOk result (bytes_of (stands self.new path.now) ≡ Some []) }
        ensures kept { told → (stands self.new path.now ≡ stands self.old path.now) ⊎ (stands self.old path.now ≡ None) }
        ensures failure { OnErr result (failed self.new) }
        ensures after { failed self.old → failed self.new };

    /// Has a file hold these bytes, and no others. Where it fails, what it holds isn't told.
    fn write(&mut self, path: &str, bytes: &[u8]) -> io::Result<()>
        ensures others { told → SameBut path.now (stands self.old) (stands self.new) }
        ensures written { told → OnOk result (bytes_of (stands self.new path.now) ≡ Some bytes.now) }
        ensures failure { OnErr result (failed self.new) }
        ensures after { failed self.old → failed self.new };

    /// Gives a file the permissions of another.
    fn permit(&mut self, path: &str, like: &str) -> io::Result<()>
        ensures others { told → SameBut path.now (stands self.old) (stands self.new) }
        ensures bytes { told → bytes_of (stands self.new path.now) ≡ bytes_of (stands self.old path.now) }
        ensures permitted { told → OnOk result (mode_of (stands self.new path.now) ≡ mode_of (stands self.old like.now)) }
        ensures failure { OnErr result (failed self.new) }
        ensures after { failed self.old → failed self.new };

    /// Waits until what a file holds outlasts a loss of power.
    fn sync(&mut self, path: &str) -> io::Result<()>
        ensures same { told → stands self.new ≡ stands self.old }
        ensures synced { OnOk result (synced self.new path.now) }
        ensures failure { OnErr result (failed self.new) }
        ensures after { failed self.old → failed self.new };

    /// Moves what stands at a path to another, in place of what stands there. Where it fails, it has moved or it hasn't.
    fn rename(&mut self, from: &str, to: &str) -> io::Result<()>
        requires { synced self.old from.now }
        ensures moved { told → OnOk result (Moves from.now to.now (stands self.old) (stands self.new)) }
        ensures whole { told → Moves from.now to.now (stands self.old) (stands self.new) ⊎ (stands self.new ≡ stands self.old) }
        ensures failure { OnErr result (failed self.new) }
        ensures after { failed self.old → failed self.new };

    /// Removes a file or a link. Where it fails, it is gone or it isn't.
    fn remove(&mut self, path: &str) -> io::Result<()>
        ensures others { told → SameBut path.now (stands self.old) (stands self.new) }
        ensures gone { told → OnOk result (stands self.new path.now ≡ None) }
        ensures whole { told → (stands self.new path.now ≡ None) ⊎ (stands self.new path.now ≡ stands self.old path.now) }
        ensures failure { OnErr result (failed self.new) }
        ensures after { failed self.old → failed self.new };
}
