//! Each form of `outside_real` once, on the files of `data` and on links that the run makes. It prints what each call gave.
#![tactic(auto)]

mod asked;

use asked::{list, put, read, tell};
use outside_real::{DirReader, DirSink, StdLines};
use pack_util::Text;
use std::os::unix::fs::symlink;
use std::{fs, io};

/// What no reader of `tree` may follow, and no sink of `out` may write through.
fn make_links(rt: &HostRuntime) -> io::Result<()> {
    symlink(rt, "../kept.txt", "tree/link.txt")?;
    symlink(rt, "/dev/zero", "tree/zero")?;
    symlink(rt, "../elsewhere", "tree/way")?;
    fs::create_dir(rt, "out")?;
    symlink(rt, "../kept.txt", "out/link.js")?;
    symlink(rt, "../elsewhere", "out/way")?;
    fs::hard_link(rt, "kept.txt", "out/second.js")
}

fn reads(rt: &HostRuntime, lines: &mut StdLines<&HostRuntime>) -> io::Result<()> {
    let mut reader = DirReader::new(rt, Text::new(rt.alloc(), "tree")?);
    for folder in ["", "folder", "way", "a.txt", ".."] {
        list(rt, &mut reader, folder, lines)?;
    }
    for path in [
        "a.txt",
        "folder/b.txt",
        "long.txt",
        "folder",
        "link.txt",
        "zero",
        "way/far.txt",
        "../kept.txt",
    ] {
        read(rt, &mut reader, path, lines)?;
    }
    Ok(())
}

fn puts(rt: &HostRuntime, lines: &mut StdLines<&HostRuntime>) -> io::Result<()> {
    let mut sink = DirSink::new(rt, Text::new(rt.alloc(), "out")?);
    for name in ["main.js", "js/deep/x.js", "link.js", "second.js"] {
        put(rt, &mut sink, name, b"one", lines)?;
        put(rt, &mut sink, name, b"two", lines)?;
    }
    for name in ["js", "main.js/x.js", "way/far.txt", "../kept.txt"] {
        put(rt, &mut sink, name, b"no", lines)?;
    }
    // No file system has a name of so many bytes, so this fails once the folder `new` and the file are made.
    let mut long = String::from_str(rt.alloc(), "new/")?;
    for _ in 0..256 {
        long.push('x')?;
    }
    put(rt, &mut sink, long.as_str(), b"no", lines)
}

fn main(rt: HostRuntime) -> io::Result<()> {
    let mut lines = StdLines::new(&rt);
    make_links(&rt)?;
    reads(&rt, &mut lines)?;
    puts(&rt, &mut lines)?;
    let mut reader = DirReader::new(&rt, Text::new(rt.alloc(), ".")?);
    for folder in ["out", "out/js", "out/js/deep", "elsewhere"] {
        list(&rt, &mut reader, folder, &mut lines)?;
    }
    for path in [
        "out/main.js",
        "out/link.js",
        "out/second.js",
        "kept.txt",
        "elsewhere/far.txt",
    ] {
        read(&rt, &mut reader, path, &mut lines)?;
    }
    tell(&rt, &mut lines, "done")
}
