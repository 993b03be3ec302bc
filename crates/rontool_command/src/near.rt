//! Names near one that isn't found.
ghost use Rattle.std.specs.Prelude.{◌≡◌};

use rontool_files::store::Store;
use std::alloc::{AllocError, Global};
use strsim::osa_distance;

/// So many edits lead to a near name at most.
const EDITS: usize = 3;

/// A path that is there, near one that isn't.
pub(crate) fn near_path<S: Store>(
    alloc: Global,
    store: &mut S,
    path: &str,
) -> Result<Option<String>, AllocError>
    ensures same { S.told → S.stands store.new ≡ S.stands store.old }
    ensures untouched { S.changes store.new ≡ S.changes store.old }
{
    let folder = match path.rsplit_once('/') {
        Some(("", _)) => "/",
        Some((folder, _)) => folder,
        None => ".",
    };
    let Ok(paths) = store.entries(alloc, folder) else {
        return Ok(None);
    };
    nearest(alloc, paths.as_slice(), path)
}

/// The one of these paths whose name is nearest to that of a path, if it is near.
fn nearest(alloc: Global, paths: &[String], path: &str) -> Result<Option<String>, AllocError> {
    let mut least = EDITS.saturating_add(1);
    let mut near = "";
    for candidate in paths {
        let edits = osa_distance(alloc, name_of(candidate.as_str()), name_of(path))?;
        if edits < least {
            least = edits;
            near = candidate.as_str();
        }
    }
    if least > EDITS {
        return Ok(None);
    }
    let near = match near.strip_prefix("./") {
        Some(near) => near,
        None => near,
    };
    Ok(Some(String::from_str(alloc, near)?))
}

/// The name at the end of a path.
fn name_of(path: &str) -> &str {
    match path.rsplit_once('/') {
        Some((_, name)) => name,
        None => path,
    }
}
