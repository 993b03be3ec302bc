//! Files in memory, which fail where they are told to: for tests.
ghost use Rattle.std.specs.Prelude.{◌≡◌, ℕ, List, [], Some, None, length, MatchOption, OnOk, OnErr, IfOk, is_some, bytes_eq, if◌then◌else◌};
ghost use Rattle.rontool_files.specs.Thing.{bytes_of, mode_of};
ghost use Rattle.rontool_files.specs.Memory.{thing_of, stands_by, stands_in, Puts};

use crate::replace::LINKS;
use crate::store::{Kind, Store};
use std::alloc::Global;
use std::io;
use std::io::ErrorKind;

/// What stands at a path.
#[derive(Drop)]
pub enum Node {
    Gone,
    File { mode: u32, bytes: Vec<u8> },
    Folder,
    Link(String),
    Other,
}

/// A change: what then stands at a path, and a path at which nothing stands any more, if it is another.
#[derive(Drop)]
pub struct Change {
    path: String,
    gone: String,
    node: Node,
}

/// Which call fails.
#[derive(Clone, Copy)]
pub struct Plan {
    /// So many calls pass before. `None`: none fails.
    pub passes: Option<usize>,
    /// The call that fails does what it can do before: a half of a write, the whole of another change.
    pub is_late: bool,
    /// All calls behind it fail too.
    pub lasts: bool,
}

/// Files in memory, as the changes by which they came to be, the latest first.
#[derive(Drop)]
pub struct MemoryFiles {
    alloc: Global,
    changes: Vec<Change>,
    plan: Plan,
}

impl MemoryFiles {
    /// No files, of which no call fails.
    pub fn new(alloc: Global) -> Self
        ensures { result.changes.items ≡ [] }
    {
        MemoryFiles {
            alloc,
            changes: Vec::new(alloc),
            plan: Plan {
                passes: None,
                is_late: false,
                lasts: false,
            },
        }
    }

    /// Has a call fail.
    pub fn fail(&mut self, plan: Plan)
        ensures { self.new.changes ≡ self.old.changes }
    {
        self.plan = plan;
    }

    /// How often something was changed.
    pub fn change_count(&self) -> usize
        ensures { result ≡ length self.now.changes.items }
    {
        self.changes.len()
    }

    /// What stands at a path.
    pub fn node(&self, path: &str) -> Option<&Node>
        ensures { MatchOption result (stands_in self.now path.now ≡ None) (λ node. stands_in self.now path.now ≡ thing_of node.now) }
    {
        node_by(self.changes.as_slice(), path)
    }

    /// Whether this call fails.
    fn fails(&mut self) -> bool
        ensures { self.new.changes ≡ self.old.changes }
    {
        match self.plan.passes {
            None => false,
            Some(0) => {
                if !self.plan.lasts {
                    self.plan.passes = None;
                }
                true
            }
            Some(left) => {
                self.plan.passes = Some(left - 1);
                false
            }
        }
    }

    /// Puts something at a path, and nothing at another.
    fn change(&mut self, path: &str, gone: &str, node: Node) -> io::Result<()>
        ensures changed { IfOk result (λ _. (at : List ℕ) → stands_in self.new at ≡
            (if bytes_eq path.now at then thing_of node else (if bytes_eq gone.now at then None else stands_in self.old at))) }
        ensures kept { OnErr result (stands_in self.new ≡ stands_in self.old) }
    {
        let path = String::from_str(self.alloc, path)?;
        let gone = String::from_str(self.alloc, gone)?;
        self.changes.insert(0, Change { path, gone, node })?;
        Ok(())
    }

    /// Puts something at a path.
    pub fn put(&mut self, path: &str, node: Node) -> io::Result<()>
        ensures put { OnOk result (Puts path.now (thing_of node) (stands_in self.old) (stands_in self.new)) }
        ensures kept { OnErr result (stands_in self.new ≡ stands_in self.old) }
    {
        self.change(path, path, node)
    }
}

impl MemoryFiles {
    /// Whether something stands at a path.
    pub fn is_taken(&self, path: &str) -> bool
        ensures { result ≡ is_some (stands_in self.now path.now) }
    {
        match self.node(path) {
            None | Some(Node::Gone) => false,
            Some(_) => true,
        }
    }

    /// The permissions of a file.
    pub fn mode(&self, path: &str) -> Option<u32>
        ensures { result ≡ mode_of (stands_in self.now path.now) }
    {
        match self.node(path) {
            Some(Node::File { mode, .. }) => Some(*mode),
            _ => None,
        }
    }

    /// What a file holds.
    fn bytes(&self, alloc: Global, path: &str) -> io::Result<Vec<u8>>
        ensures { IfOk result (λ bytes. bytes_of (stands_in self.now path.now) ≡ Some bytes.items) }
    {
        match self.node(path) {
            Some(Node::File { bytes, .. }) => Ok(Vec::from_slice(alloc, bytes.as_slice())?),
            _ => Err(io::Error::from(ErrorKind::NotFound)),
        }
    }

    /// What stands at a path, again.
    fn copied(&self, path: &str) -> io::Result<Node>
        ensures { IfOk result (λ node. thing_of node ≡ stands_in self.now path.now) }
    {
        match self.node(path) {
            Some(node) => copy_of(self.alloc, node),
            None => Err(io::Error::from(ErrorKind::NotFound)),
        }
    }

    /// The path that a path leads to.
    fn end(&self, alloc: Global, path: &str, turns: usize) -> io::Result<String> {
        if turns == 0 {
            return Err(io::Error::from(ErrorKind::FilesystemLoop));
        }
        match self.node(path) {
            Some(Node::Link(to)) => self.end(alloc, to.as_str(), turns - 1),
            _ => Ok(String::from_str(alloc, path)?),
        }
    }

    /// The paths of what stands in a folder.
    fn paths_in(&self, alloc: Global, folder: &str) -> io::Result<Vec<String>> {
        let mut found: Vec<String> = Vec::new(alloc);
        for change in &self.changes {
            let path = change.path.as_str();
            let is_known = found.iter().any(|known| known.as_str() == path);
            if !is_known && is_within(path, folder) && self.is_taken(path) {
                found.push(String::from_str(alloc, path)?)?;
            }
        }
        Ok(found)
    }
}

/// Whether a path is that of something in a folder.
fn is_within(path: &str, folder: &str) -> bool {
    match path.rsplit_once('/') {
        Some((parent, _)) => parent == folder,
        None => false,
    }
}

/// What stands at a path by these changes.
fn node_by<'a>(changes: &'a [Change], path: &str) -> Option<&'a Node>
    ensures { MatchOption result (stands_by changes.now path.now ≡ None) (λ node. stands_by changes.now path.now ≡ thing_of node.now) }
{
    match changes {
        [] => None,
        [last, before @ ..] => {
            if last.path.as_str() == path {
                return Some(&last.node);
            }
            if last.gone.as_str() == path {
                return None;
            }
            node_by(before, path)
        }
    }
}

/// The error of a call that is to fail.
fn told_to_fail() -> io::Error {
    io::Error::new(ErrorKind::Other, "this call was to fail")
}

/// The same node again.
fn copy_of(alloc: Global, node: &Node) -> io::Result<Node>
    ensures { IfOk result (λ copy. thing_of copy ≡ thing_of node.now) }
{
    Ok(match node {
        Node::Gone => Node::Gone,
        Node::File { mode, bytes } => Node::File {
            mode: *mode,
            bytes: Vec::from_slice(alloc, bytes.as_slice())?,
        },
        Node::Folder => Node::Folder,
        Node::Link(to) => Node::Link(String::from_str(alloc, to.as_str())?),
        Node::Other => Node::Other,
    })
}

impl Store for MemoryFiles {
    ghost use Rattle.std.specs.Prelude.{ℕ, length};
    ghost use Rattle.rontool_files.specs.Memory.{stands_in};

    ghost told = { Unit {0} };

    ghost stands = { stands_in };

    ghost synced = { λ _ _. Unit {0} };

    ghost changes = { λ files. length files.changes.items };

    ghost failed = { λ _. Unit {0} };

    fn kind(&mut self, path: &str) -> io::Result<Kind> {
        if self.fails() {
            return Err(told_to_fail());
        }
        match self.node(path) {
            Some(Node::File { .. }) => Ok(Kind::File),
            Some(Node::Folder) => Ok(Kind::Folder),
            Some(Node::Link(_)) => Ok(Kind::Link),
            Some(Node::Other) => Ok(Kind::Other),
            Some(Node::Gone) | None => Err(io::Error::from(ErrorKind::NotFound)),
        }
    }

    fn target(&mut self, alloc: Global, path: &str) -> io::Result<String> {
        if self.fails() {
            return Err(told_to_fail());
        }
        match self.node(path) {
            Some(Node::Link(to)) => Ok(String::from_str(alloc, to.as_str())?),
            _ => Err(io::Error::from(ErrorKind::InvalidInput)),
        }
    }

    fn real(&mut self, alloc: Global, path: &str) -> io::Result<String> {
        if self.fails() {
            return Err(told_to_fail());
        }
        self.end(alloc, path, LINKS)
    }

    fn read(&mut self, alloc: Global, path: &str) -> io::Result<Vec<u8>> {
        if self.fails() {
            return Err(told_to_fail());
        }
        self.bytes(alloc, path)
    }

    fn entries(&mut self, alloc: Global, path: &str) -> io::Result<Vec<String>> {
        if self.fails() {
            return Err(told_to_fail());
        }
        match self.node(path) {
            Some(Node::Folder) => self.paths_in(alloc, path),
            _ => Err(io::Error::from(ErrorKind::NotADirectory)),
        }
    }

    fn create(&mut self, path: &str) -> io::Result<()> {
        let fails = self.fails();
        if fails && !self.plan.is_late {
            return Err(told_to_fail());
        }
        if self.is_taken(path) {
            return Err(io::Error::from(ErrorKind::AlreadyExists));
        }
        let bytes = Vec::new(self.alloc);
        self.put(path, Node::File { mode: 0o600, bytes })?;
        if fails { Err(told_to_fail()) } else { Ok(()) }
    }

    fn write(&mut self, path: &str, bytes: &[u8]) -> io::Result<()> {
        let fails = self.fails();
        if fails && !self.plan.is_late {
            return Err(told_to_fail());
        }
        let Some(mode) = self.mode(path) else {
            return Err(io::Error::from(ErrorKind::NotFound));
        };
        let written = if fails {
            &bytes[..bytes.len() / 2]
        } else {
            bytes
        };
        let bytes = Vec::from_slice(self.alloc, written)?;
        self.put(path, Node::File { mode, bytes })?;
        if fails { Err(told_to_fail()) } else { Ok(()) }
    }

    fn permit(&mut self, path: &str, like: &str) -> io::Result<()> {
        let fails = self.fails();
        if fails && !self.plan.is_late {
            return Err(told_to_fail());
        }
        let Some(mode) = self.mode(like) else {
            return Err(io::Error::from(ErrorKind::NotFound));
        };
        let bytes = self.bytes(self.alloc, path)?;
        self.put(path, Node::File { mode, bytes })?;
        if fails { Err(told_to_fail()) } else { Ok(()) }
    }

    fn sync(&mut self, path: &str) -> io::Result<()> {
        if self.fails() {
            Err(told_to_fail())
        } else {
            Ok(())
        }
    }

    fn rename(&mut self, from: &str, to: &str) -> io::Result<()> {
        let fails = self.fails();
        if fails && !self.plan.is_late {
            return Err(told_to_fail());
        }
        let node = self.copied(from)?;
        self.change(to, from, node)?;
        if fails { Err(told_to_fail()) } else { Ok(()) }
    }

    fn remove(&mut self, path: &str) -> io::Result<()> {
        let fails = self.fails();
        if fails && !self.plan.is_late {
            return Err(told_to_fail());
        }
        if !self.is_taken(path) {
            return Err(io::Error::from(ErrorKind::NotFound));
        }
        self.put(path, Node::Gone)?;
        if fails { Err(told_to_fail()) } else { Ok(()) }
    }
}
