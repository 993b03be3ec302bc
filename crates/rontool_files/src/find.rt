//! The files that paths and folders name.
ghost use Rattle.std.specs.Prelude.{◌≡◌};

use crate::glob::fits;
use crate::replace::{LINKS, follow};
use crate::store::{Kind, Store};
use std::alloc::{AllocError, Global};
use std::collections::BTreeSet;
use std::io;
use std::io::ErrorKind;

/// A path that can't be opened, and why.
#[derive(Debug, Drop)]
pub struct Unopened {
    pub path: String,
    pub error: io::Error,
}

/// The files that were found, in the order of the paths given and then of names, and the paths that can't be opened.
#[derive(Debug, Drop)]
pub struct Found {
    pub files: Vec<String>,
    pub unopened: Vec<Unopened>,
}

/// A path that is still to be gone to. The part of it that was given ends here; a path that is given has no other part.
#[derive(Drop)]
struct Waiting {
    path: String,
    given: usize,
}

/// What is known so far.
#[derive(Drop)]
struct Search {
    alloc: Global,
    waiting: Vec<Waiting>,
    seen: BTreeSet<String>,
    found: Found,
}

/// The files that paths name: a file by its path, whatever its name; of a folder and all folders in it the files whose
/// names end in `.ron`, in the order of names. What `.git` or a glob names is left out of folders: a glob with a slash
/// names a path below the folder that was given, any other a name. Links are followed, and no folder is gone through
/// twice. A path that can't be opened is told, and the others go on. It fails where no memory is found.
pub fn find<S: Store>(
    alloc: Global,
    store: &mut S,
    paths: &[String],
    excludes: &[String],
) -> Result<Found, AllocError>
    ensures same { S.told → S.stands store.new ≡ S.stands store.old }
    ensures untouched { S.changes store.new ≡ S.changes store.old }
{
    let mut search = Search::new(alloc);
    search.wait_for(paths)?;
    'paths: for _ in 0..u64::MAX {
        let Some(next) = search.waiting.pop() else {
            break;
        };
        search.visit(store, excludes, next)?;
    }
    Ok(search.found)
}

impl Search {
    /// Nothing is known yet.
    fn new(alloc: Global) -> Self {
        Search {
            alloc,
            waiting: Vec::new(alloc),
            seen: BTreeSet::new(alloc),
            found: Found {
                files: Vec::new(alloc),
                unopened: Vec::new(alloc),
            },
        }
    }

    /// A path is to be gone to next.
    fn wait(&mut self, path: String, given: usize) -> Result<(), AllocError> {
        self.waiting.push(Waiting { path, given })?;
        Ok(())
    }

    /// These paths are to be gone to next, in their order.
    fn wait_for(&mut self, paths: &[String]) -> Result<(), AllocError> {
        for path in paths.iter().rev() {
            self.wait(String::from_str(self.alloc, path.as_str())?, path.len())?;
        }
        Ok(())
    }

    /// A path can't be opened.
    fn tell(&mut self, path: String, error: io::Error) -> Result<(), AllocError> {
        self.found.unopened.push(Unopened { path, error })?;
        Ok(())
    }

    /// Goes to a path.
    fn visit<S: Store>(
        &mut self,
        store: &mut S,
        excludes: &[String],
        next: Waiting,
    ) -> Result<(), AllocError>
        ensures same { S.told → S.stands store.new ≡ S.stands store.old }
        ensures untouched { S.changes store.new ≡ S.changes store.old }
    {
        let is_given = next.given == next.path.len();
        let is_wanted = is_given || next.path.as_str().ends_with(".ron");
        match end_kind(self.alloc, store, next.path.as_str()) {
            Ok(Kind::Folder) => self.enter(store, excludes, next),
            Ok(Kind::File) if is_wanted => Ok(self.found.files.push(next.path)?),
            Ok(Kind::File) => Ok(()),
            Ok(_) if is_given => self.tell(next.path, io::Error::from(ErrorKind::InvalidInput)),
            Ok(_) => Ok(()),
            Err(error) if is_wanted => self.tell(next.path, error),
            Err(_) => Ok(()),
        }
    }

    /// Goes through a folder, unless it was gone through before.
    fn enter<S: Store>(
        &mut self,
        store: &mut S,
        excludes: &[String],
        folder: Waiting,
    ) -> Result<(), AllocError>
        ensures same { S.told → S.stands store.new ≡ S.stands store.old }
        ensures untouched { S.changes store.new ≡ S.changes store.old }
    {
        let real = match store.real(self.alloc, folder.path.as_str()) {
            Ok(real) => real,
            Err(error) => return self.tell(folder.path, error),
        };
        if !self.seen.insert(real)? {
            return Ok(());
        }
        let mut paths = match store.entries(self.alloc, folder.path.as_str()) {
            Ok(paths) => paths,
            Err(error) => return self.tell(folder.path, error),
        };
        paths.sort()?;
        for path in paths.into_iter().rev() {
            if !is_left_out(excludes, path.as_str(), folder.given) {
                self.wait(path, folder.given)?;
            }
        }
        Ok(())
    }
}

/// The kind of what a path leads to.
fn end_kind<S: Store>(alloc: Global, store: &mut S, path: &str) -> io::Result<Kind>
    ensures same { S.told → S.stands store.new ≡ S.stands store.old }
    ensures untouched { S.changes store.new ≡ S.changes store.old }
{
    let end = follow(alloc, store, path, LINKS)?;
    store.kind(end.as_str())
}

/// Whether what a folder holds is left out, by a path of which so much was given.
fn is_left_out(excludes: &[String], path: &str, given: usize) -> bool {
    let name = match path.rsplit_once('/') {
        Some((_, name)) => name,
        None => path,
    };
    let within = match path.split_at_checked(given) {
        Some((_, within)) => within,
        None => path,
    };
    let within = match within.strip_prefix('/') {
        Some(within) => within,
        None => within,
    };
    name == ".git"
        || excludes
            .iter()
            .any(|glob| excludes_by(glob.as_str(), name, within))
}

/// Whether a glob leaves out a name, or a path below a folder.
fn excludes_by(glob: &str, name: &str, within: &str) -> bool {
    if glob.contains('/') {
        fits(glob, within)
    } else {
        fits(glob, name)
    }
}
