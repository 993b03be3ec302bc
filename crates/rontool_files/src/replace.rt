//! A file replaced by a new one.
ghost use Rattle.std.specs.Prelude.{◌≡◌, List, ℕ, Some, None, IsSome, IfOk, OnOk, IfErr, OnErr, string_bytes};
ghost use Rattle.rontool_files.specs.Thing.{bytes_of, end_of};
ghost use Rattle.rontool_files.specs.Replace.{new_path, IsKept, Leaves, Replaces, IsReplaced, IsReason, reason_of};
ghost use Rattle.rontool_files.specs.declared.replace.TheConstants.{LINKS};

use crate::store::{Kind, Store};
use std::alloc::{AllocError, Global};
use std::io;
use std::io::ErrorKind;

/// What the name of the new file has behind the name of the old one.
pub const NEW: &str = ".rontool-new";

/// A path that leads through so many links leads nowhere.
pub const LINKS: usize = 40;

/// What replacing a file has done.
#[derive(Clone, Copy, Debug, PartialEq, Eq)]
pub enum Replaced {
    /// It held these bytes, and wasn't touched.
    Unchanged,
    /// It was replaced.
    Written,
}

/// Why a file isn't replaced.
#[derive(Debug, Drop)]
pub enum Refused {
    /// What the path leads to isn't found.
    Find(io::Error),
    /// The file can't be read.
    Read(io::Error),
    /// The new file can't be made. Where something stands at its path, `AlreadyExists`: that stays.
    Create(io::Error),
    /// The new file can't be written, or not put in place of the old one.
    Write(io::Error),
}

/// Has the file that a path leads to hold these bytes. A new file is written beside it, under its name and `NEW`, is
/// given its permissions, and takes its place once it is whole. A file that holds the bytes isn't touched. It is refused
/// where a call of the store fails or no memory is found: then the file holds what it held or the new bytes, and the new
/// file is removed if it can be.
pub fn replace<S: Store>(
    alloc: Global,
    store: &mut S,
    path: &str,
    bytes: &[u8],
) -> Result<Replaced, Refused>
    ensures found { S.told → OnOk result (IsSome (end_of (S.stands store.old) LINKS path.now)) }
    ensures leaves { S.told → (file : List ℕ) → end_of (S.stands store.old) LINKS path.now ≡ Some file
        → Leaves file (new_path file) bytes.now (S.stands store.old) (S.stands store.new) }
    ensures kept { S.told → (file : List ℕ) → end_of (S.stands store.old) LINKS path.now ≡ Some file
        → IsKept (new_path file) (S.stands store.old) (S.stands store.new) }
    ensures replaced { S.told → (file : List ℕ) → end_of (S.stands store.old) LINKS path.now ≡ Some file
        → IfOk result (IsReplaced file bytes.now (S.stands store.old) (S.stands store.new)) }
    ensures untouched { S.told → (file : List ℕ) → end_of (S.stands store.old) LINKS path.now ≡ Some file
        → bytes_of (S.stands store.old file) ≡ Some bytes.now → S.changes store.new ≡ S.changes store.old }
    ensures refused { S.told → (file : List ℕ) → end_of (S.stands store.old) LINKS path.now ≡ Some file
        → IfErr result (λ refused. IsReason (S.failed store.new) (reason_of refused)) }
    ensures nowhere { S.told → end_of (S.stands store.old) LINKS path.now ≡ None → S.stands store.new ≡ S.stands store.old }
{
    match follow(alloc, store, path, LINKS) {
        Ok(file) => replace_file(alloc, store, file.as_str(), bytes),
        Err(error) => Err(Refused::Find(error)),
    }
}

/// The path of the file or folder that a path leads to.
pub fn follow<S: Store>(
    alloc: Global,
    store: &mut S,
    path: &str,
    turns: usize,
) -> io::Result<String>
    ensures same { S.told → S.stands store.new ≡ S.stands store.old }
    ensures untouched { S.changes store.new ≡ S.changes store.old }
    ensures end { S.told → IfOk result (λ end. end_of (S.stands store.old) turns path.now ≡ Some (string_bytes end)) }
    ensures refused { S.told → (end : List ℕ) → end_of (S.stands store.old) turns path.now ≡ Some end
        → IfErr result (IsReason (S.failed store.new)) }
{
    if turns == 0 {
        return Err(io::Error::new(
            ErrorKind::FilesystemLoop,
            "a path leads through too many links",
        ));
    }
    match store.kind(path)? {
        Kind::Link => {
            let to = store.target(alloc, path)?;
            follow(alloc, store, to.as_str(), turns - 1)
        }
        _ => Ok(String::from_str(alloc, path)?),
    }
}

/// The path of the new file beside a file.
pub fn beside(alloc: Global, path: &str) -> Result<String, AllocError>
    ensures { IfOk result (λ new. string_bytes new ≡ new_path path.now) }
{
    let mut new = String::from_str(alloc, path)?;
    new.push_str(NEW)?;
    Ok(new)
}

/// The same for a path that is no link.
pub fn replace_file<S: Store>(
    alloc: Global,
    store: &mut S,
    path: &str,
    bytes: &[u8],
) -> Result<Replaced, Refused>
    ensures leaves { S.told → Leaves path.now (new_path path.now) bytes.now (S.stands store.old) (S.stands store.new) }
    ensures kept { S.told → IsKept (new_path path.now) (S.stands store.old) (S.stands store.new) }
    ensures replaced { S.told → IfOk result (IsReplaced path.now bytes.now (S.stands store.old) (S.stands store.new)) }
    ensures untouched { S.told → bytes_of (S.stands store.old path.now) ≡ Some bytes.now → S.changes store.new ≡ S.changes store.old }
    ensures refused { IfErr result (λ refused. IsReason (S.failed store.new) (reason_of refused)) }
{
    match store.read(alloc, path) {
        Ok(held) => {
            if held.as_slice() == bytes {
                Ok(Replaced::Unchanged)
            } else {
                write_beside(alloc, store, path, bytes)
            }
        }
        Err(error) => Err(Refused::Read(error)),
    }
}

/// Replaces a file, whatever it holds.
fn write_beside<S: Store>(
    alloc: Global,
    store: &mut S,
    path: &str,
    bytes: &[u8],
) -> Result<Replaced, Refused>
    ensures leaves { S.told → Leaves path.now (new_path path.now) bytes.now (S.stands store.old) (S.stands store.new) }
    ensures kept { S.told → IsKept (new_path path.now) (S.stands store.old) (S.stands store.new) }
    ensures replaced { S.told → OnOk result (Replaces path.now (new_path path.now) bytes.now (S.stands store.old) (S.stands store.new)) }
    ensures written { IfOk result (λ done. done ≡ Replaced.Written) }
    ensures refused { IfErr result (λ refused. IsReason (S.failed store.new) (reason_of refused)) }
{
    let new = match beside(alloc, path) {
        Ok(new) => new,
        Err(refused) => return Err(Refused::Create(io::Error::from(refused))),
    };
    if let Err(error) = store.create(new.as_str()) {
        return Err(Refused::Create(error));
    }
    match take_place(store, path, new.as_str(), bytes) {
        Ok(()) => Ok(Replaced::Written),
        Err(error) => Err(Refused::Write(error)),
    }
}

/// Has a new file hold these bytes and take the place of a file, or removes it.
fn take_place<S: Store>(store: &mut S, path: &str, new: &str, bytes: &[u8]) -> io::Result<()>
    requires { path.now ≡ new.now → ⊥ }
    ensures leaves { S.told → Leaves path.now new.now bytes.now (S.stands store.old) (S.stands store.new) }
    ensures replaced { S.told → OnOk result (Replaces path.now new.now bytes.now (S.stands store.old) (S.stands store.new)) }
    ensures failure { OnErr result (S.failed store.new) }
{
    let done = write_and_move(store, path, new, bytes);
    if done.is_err() {
        let _ = store.remove(new);
    }
    done
}

/// Has a new file hold these bytes under a file's permissions, and take its place once that lasts.
fn write_and_move<S: Store>(store: &mut S, path: &str, new: &str, bytes: &[u8]) -> io::Result<()>
    requires { path.now ≡ new.now → ⊥ }
    ensures leaves { S.told → Leaves path.now new.now bytes.now (S.stands store.old) (S.stands store.new) }
    ensures replaced { S.told → OnOk result (Replaces path.now new.now bytes.now (S.stands store.old) (S.stands store.new)) }
    ensures failure { OnErr result (S.failed store.new) }
{
    store.write(new, bytes)?;
    store.permit(new, path)?;
    store.sync(new)?;
    store.rename(new, path)
}
