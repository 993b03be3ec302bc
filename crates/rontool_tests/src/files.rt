//! Each call failing in turn, and the files that paths name.
use rontool_files::find::find;
use rontool_files::glob::fits;
use rontool_files::memory::{MemoryFiles, Node, Plan};
use rontool_files::replace::{Refused, Replaced, replace};
use std::alloc::{AllocError, Global};
use std::io;
use std::io::ErrorKind;

const OLD: &[u8] = b"(old: 1)";

const NEW: &[u8] = b"(\n    new: 2,\n)\n";

/// A file with these bytes.
fn file(alloc: Global, bytes: &[u8]) -> Result<Node, AllocError> {
    Ok(Node::File {
        mode: 0o640,
        bytes: Vec::from_slice(alloc, bytes)?,
    })
}

/// A link that leads there.
fn link(alloc: Global, to: &str) -> Result<Node, AllocError> {
    Ok(Node::Link(String::from_str(alloc, to)?))
}

/// A file, a link that leads to it, and another file.
fn some_files(alloc: Global) -> io::Result<MemoryFiles> {
    let mut files = MemoryFiles::new(alloc);
    files.put("a.ron", file(alloc, OLD)?)?;
    files.put("l.ron", link(alloc, "a.ron")?)?;
    files.put("b.ron", file(alloc, OLD)?)?;
    Ok(files)
}

/// Whether a file holds these bytes, under the permissions that it had.
fn holds(files: &MemoryFiles, path: &str, wanted: &[u8]) -> bool {
    match files.node(path) {
        Some(Node::File { mode, bytes }) => *mode == 0o640 && bytes.as_slice() == wanted,
        _ => false,
    }
}

/// Whether the other file and the link are as they were.
fn is_kept(files: &MemoryFiles) -> bool {
    holds(files, "b.ron", OLD) && matches!(files.node("l.ron"), Some(Node::Link(_)))
}

/// What one call that fails leaves: whether the answer is Ok, and whether all is as it should be.
fn with_fault(alloc: Global, plan: Plan) -> io::Result<(bool, bool)> {
    let mut files = some_files(alloc)?;
    files.fail(plan);
    let is_done = replace(alloc, &mut files, "l.ron", NEW).is_ok();
    let is_whole = holds(&files, "a.ron", NEW) || !is_done && holds(&files, "a.ron", OLD);
    let is_clean = !is_done || !files.is_taken("a.ron.rontool-new");
    Ok((is_done, is_whole && is_clean && is_kept(&files)))
}

#[test]
fn leaves_the_old_or_the_new_file(rt: HostRuntime) {
    for is_late in [false, true] {
        for lasts in [false, true] {
            for n in 0..10 {
                let plan = Plan {
                    passes: Some(n),
                    is_late,
                    lasts,
                };
                let (is_done, is_right) = with_fault(rt.alloc(), plan).expect(&rt, "memory");
                assert!(rt; is_right);
                assert_eq!(rt; is_done, n == 9);
            }
        }
    }
}

#[test]
fn touches_nothing_that_holds_the_bytes(rt: HostRuntime) {
    let mut files = some_files(rt.alloc()).expect(&rt, "memory");
    let before = files.change_count();
    let done = replace(rt.alloc(), &mut files, "l.ron", OLD).expect(&rt, "a file");
    assert_eq!(rt; done, Replaced::Unchanged);
    assert_eq!(rt; files.change_count(), before);
}

#[test]
fn refuses_a_taken_name(rt: HostRuntime) {
    let mut files = some_files(rt.alloc()).expect(&rt, "memory");
    let stray = file(rt.alloc(), b"mine").expect(&rt, "memory");
    files.put("a.ron.rontool-new", stray).expect(&rt, "memory");
    let Err(Refused::Create(error)) = replace(rt.alloc(), &mut files, "a.ron", NEW) else {
        panic!(rt; "a taken name was written");
    };
    assert_eq!(rt; error.kind(), ErrorKind::AlreadyExists);
    assert!(rt; holds(&files, "a.ron.rontool-new", b"mine") && holds(&files, "a.ron", OLD));
}

#[test]
fn refuses_links_in_a_circle(rt: HostRuntime) {
    let mut files = MemoryFiles::new(rt.alloc());
    for (path, to) in [("a", "b"), ("b", "a")] {
        files
            .put(path, link(rt.alloc(), to).expect(&rt, "memory"))
            .expect(&rt, "memory");
    }
    assert!(rt;
        matches!(
            replace(rt.alloc(), &mut files, "a", NEW),
            Err(Refused::Find(_))
        )
    );
}

/// A folder with files, folders and links.
fn a_tree(alloc: Global) -> io::Result<MemoryFiles> {
    let mut files = MemoryFiles::new(alloc);
    for folder in ["game", "game/.git", "game/b", "game/target"] {
        files.put(folder, Node::Folder)?;
    }
    for path in [
        "game/c.ron",
        "game/.git/x.ron",
        "game/b/z.ron",
        "game/b/a.ron",
        "game/a.txt",
        "game/a.ron",
        "game/target/t.ron",
    ] {
        files.put(path, file(alloc, OLD)?)?;
    }
    files.put("game/b/round", link(alloc, "game")?)?;
    files.put("game/lost.ron", link(alloc, "nowhere")?)?;
    Ok(files)
}

/// What is found, as one text.
fn found(alloc: Global, paths: &[&str], excludes: &[&str]) -> io::Result<String> {
    let mut files = a_tree(alloc)?;
    let paths = owned(alloc, paths)?;
    let excludes = owned(alloc, excludes)?;
    let found = find(alloc, &mut files, paths.as_slice(), excludes.as_slice())?;
    let mut told = String::new(alloc);
    for path in &found.files {
        told.push_str(path.as_str())?;
        told.push(' ')?;
    }
    for unopened in &found.unopened {
        told.push('!')?;
        told.push_str(unopened.path.as_str())?;
        told.push(' ')?;
    }
    Ok(told)
}

/// These texts, owned.
fn owned(alloc: Global, texts: &[&str]) -> Result<Vec<String>, AllocError> {
    let mut owned = Vec::new(alloc);
    for text in texts {
        owned.push(String::from_str(alloc, *text)?)?;
    }
    Ok(owned)
}

#[test]
fn finds_files_in_the_order_of_names(rt: HostRuntime) {
    for (paths, excludes, want) in [
        (
            ["game", "game/a.txt"],
            ["", ""],
            "game/a.ron game/b/a.ron game/b/z.ron game/c.ron game/target/t.ron game/a.txt !game/lost.ron ",
        ),
        (["none", "game/b/a.ron"], ["", ""], "game/b/a.ron !none "),
        (
            ["game", "game"],
            ["target", "b/a*"],
            "game/a.ron game/b/z.ron game/c.ron !game/lost.ron ",
        ),
        (
            ["game", "game/b"],
            ["**/z.ron", "l*.ron"],
            "game/a.ron game/b/a.ron game/c.ron game/target/t.ron ",
        ),
    ] {
        let told = found(rt.alloc(), paths.as_slice(), excludes.as_slice()).expect(&rt, "memory");
        assert_eq!(rt; told.as_str(), want);
    }
}

#[test]
fn globs_stand_for_names(rt: HostRuntime) {
    for (glob, text, want) in [
        ("a.ron", "a.ron", true),
        ("a.ron", "b.ron", false),
        ("*.ron", "a.ron", true),
        ("*.ron", "a/b.ron", false),
        ("?.ron", "é.ron", true),
        ("?.ron", "éa.ron", false),
        ("**/b.ron", "b.ron", true),
        ("**/b.ron", "x/y/b.ron", true),
        ("**/b.ron", "xb.ron", false),
        ("a/**", "a/x/y", true),
        ("a/*/c", "a/b/c", true),
        ("a/*/c", "a/b/b/c", false),
        ("*", "", true),
        ("", "a", false),
    ] {
        assert_eq!(rt; fits(glob, text), want);
    }
}
