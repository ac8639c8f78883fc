//! What counts as a file of a real folder: links by what they lead to, and nothing that is no regular file.
use mol_base::{List, OutOfMemory, Text};
use mol_outside::{DirFiles, FileFail, Files};
use std::alloc::Global;
use std::fs;
use std::os::unix::fs::symlink;
use std::test::Fail;

const FOLDER: &str = "mol_outside_links";

/// Links below the folder, and what they lead to.
const LINKS: [(&str, &str); 4] = [
    ("b/file", "../a"),
    ("folder", "b"),
    ("nothing", "c"),
    ("device", "/dev/null"),
];

/// A path below the folder.
fn below(alloc: Global, path: &str) -> Result<Text, OutOfMemory> {
    let mut full = String::from_str(alloc, FOLDER)?;
    full.push('/')?;
    full.push_str(path)?;
    Ok(Text::from_string(full))
}

/// What a read of a path below the folder answers: the length of the file there.
fn length<F: Files>(files: &mut F, alloc: Global, path: &str) -> Result<Option<usize>, FileFail> {
    let found = files.read(alloc, &below(alloc, path)?)?;
    Ok(found.map(|bytes: List<u8>| bytes.items().len()))
}

/// The paths below the folder, each followed by a space.
fn listing<F: Files>(files: &mut F, alloc: Global) -> Result<String, FileFail> {
    let mut joined = String::new(alloc);
    for path in files.list(alloc, &Text::from_str(alloc, FOLDER)?)?.items() {
        joined.push_str(path.as_str())?;
        joined.push(' ')?;
    }
    Ok(joined)
}

#[test]
fn a_link_counts_as_what_it_leads_to(rt: HostRuntime) -> Result<(), Fail> {
    let alloc = rt.alloc();
    let _ = fs::remove_dir_all(&rt, FOLDER);
    let mut files = DirFiles::new(&rt);
    for path in ["a", "b/c"] {
        assert!(rt;
            files
                .write(&below(alloc, path)?, b"1234".as_slice())
                .is_ok()
        );
    }
    for (link, target) in LINKS {
        symlink(&rt, target, below(alloc, link)?.as_str())?;
    }
    assert_eq!(rt;
        listing(&mut files, alloc)?.as_str(),
        "a b/c b/file folder/c folder/file "
    );
    assert_eq!(rt; length(&mut files, alloc, "b/file")?, Some(4));
    assert_eq!(rt; length(&mut files, alloc, "folder/c")?, Some(4));
    assert_eq!(rt; length(&mut files, alloc, "nothing")?, None);
    assert_eq!(rt; length(&mut files, alloc, "device")?, None);
    assert!(rt;
        files
            .write(&below(alloc, "device")?, b"1".as_slice())
            .is_err()
    );
    fs::remove_dir_all(&rt, FOLDER)?;
    Ok(())
}

#[test]
fn links_in_a_circle_fail(rt: HostRuntime) -> Result<(), Fail> {
    let alloc = rt.alloc();
    let folder = "mol_outside_circle";
    let _ = fs::remove_dir_all(&rt, folder);
    fs::create_dir_all(&rt, folder)?;
    symlink(&rt, ".", "mol_outside_circle/again")?;
    let listed = DirFiles::new(&rt).list(alloc, &Text::from_str(alloc, folder)?);
    assert!(rt; matches!(listed, Err(FileFail::Failed)));
    fs::remove_dir_all(&rt, folder)?;
    Ok(())
}
