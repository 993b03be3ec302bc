//! The system's files.
use crate::store::{Kind, Store};
use std::alloc::Global;
use std::fs::{File, Files, OpenFile, OpenOptions};
use std::io::{Read, Write};
use std::os::unix::fs::OpenOptionsExt;
use std::{fs, io};

/// The system's files, which tell nothing of what they hold.
#[derive(Drop)]
pub struct DiskFiles<'a, R> {
    files: &'a R,
}

impl<'a, R: Files> DiskFiles<'a, R> {
    /// The files that are reached through this.
    pub fn new(files: &'a R) -> Self {
        DiskFiles { files }
    }
}

impl<R: Files> Store for DiskFiles<'_, R> {
    ghost use Rattle.std.specs.Prelude.{None};

    ghost told = { ⊥ };

    ghost stands = { λ _ _. None };

    ghost synced = { λ _ _. Unit {0} };

    ghost changes = { λ _. 0 };

    ghost failed = { λ _. Unit {0} };

    fn kind(&mut self, path: &str) -> io::Result<Kind> {
        let metadata = self.files.symlink_metadata(path)?;
        Ok(if metadata.is_file() {
            Kind::File
        } else if metadata.is_dir() {
            Kind::Folder
        } else if metadata.is_symlink() {
            Kind::Link
        } else {
            Kind::Other
        })
    }

    fn target(&mut self, alloc: Global, path: &str) -> io::Result<String> {
        let to = self.files.read_link(alloc, path)?;
        joined(alloc, path, to.as_str())
    }

    fn real(&mut self, alloc: Global, path: &str) -> io::Result<String> {
        let real = self.files.canonicalize(alloc, path)?;
        Ok(String::from_str(alloc, real.as_str())?)
    }

    fn read(&mut self, alloc: Global, path: &str) -> io::Result<Vec<u8>> {
        let mut file = File::open(self.files, path)?;
        let mut bytes = Vec::new(alloc);
        file.read_to_end(&mut bytes)?;
        Ok(bytes)
    }

    fn entries(&mut self, alloc: Global, path: &str) -> io::Result<Vec<String>> {
        let mut found = Vec::new(alloc);
        for entry in fs::read_dir(&(self.files, alloc), path)? {
            let entry = entry?;
            found.push(String::from_str(alloc, entry.path().as_str())?)?;
        }
        Ok(found)
    }

    fn create(&mut self, path: &str) -> io::Result<()> {
        // others may not read it before it has its permissions
        let mut options = OpenOptions::new();
        options.write(true).create_new(true).mode(0o600);
        options.open(self.files, path)?;
        Ok(())
    }

    fn write(&mut self, path: &str, bytes: &[u8]) -> io::Result<()> {
        let mut options = OpenOptions::new();
        options.write(true).truncate(true);
        let mut file = options.open(self.files, path)?;
        file.write_all(bytes)
    }

    fn permit(&mut self, path: &str, like: &str) -> io::Result<()> {
        let permissions = self.files.metadata(like)?.permissions();
        self.files.set_permissions(path, permissions)
    }

    fn sync(&mut self, path: &str) -> io::Result<()> {
        File::open(self.files, path)?.sync_all()
    }

    fn rename(&mut self, from: &str, to: &str) -> io::Result<()> {
        self.files.rename(from, to)
    }

    fn remove(&mut self, path: &str) -> io::Result<()> {
        self.files.remove_file(path)
    }
}

/// Where a link leads, as it is seen from where the link is.
fn joined(alloc: Global, link: &str, to: &str) -> io::Result<String> {
    if to.starts_with('/') {
        return Ok(String::from_str(alloc, to)?);
    }
    match link.rsplit_once('/') {
        Some((folder, _)) => Ok(format!(in alloc; "{folder}/{to}")?),
        None => Ok(String::from_str(alloc, to)?),
    }
}
