// The real folder: what it writes can be read, and it knows a file by its links.
ghost use Rattle.std.specs.Prelude.{◌<◌, ◌≤◌, length, IsTrue};
ghost use Rattle.elem_core.specs.Line.{has_no_lf};

use elem_core::line::Line;
use std::alloc::{AllocError, Global};
use std::fs;
use std::os::unix::fs::symlink;
use std::test::Fail;
use stream_io::outside::{Drain, Folder, Source};
use stream_io::real::DirFolder;

fn name(alloc: Global, text: &[u8]) -> Result<Line, AllocError>
    requires short { length text.now ≤ 65536 }
    requires no_lf { IsTrue (has_no_lf text.now) }
{
    Ok(Line::of(Vec::from_slice(alloc, text)?))
}

// The first bytes of a file.
fn drawn<F: Folder>(alloc: Global, folder: &mut F, name: &Line) -> Result<Vec<u8>, AllocError> {
    let Ok(mut source) = folder.open_in(alloc, name) else {
        return Vec::from_slice(alloc, b"missing");
    };
    let mut piece = [0; 8];
    let bytes = match source.next_piece(&mut piece) {
        Ok(size) => Vec::from_slice(alloc, &piece[..size])?,
        Err(_) => Vec::from_slice(alloc, b"fault")?,
    };
    folder.close_in(source);
    Ok(bytes)
}

// Writes to a file, and says how that went.
fn written<F: Folder>(alloc: Global, folder: &mut F, name: &Line, bytes: &[u8]) -> &'static [u8]
    requires { 0 < length bytes.now }
{
    let Ok(mut drain) = folder.open_out(alloc, name) else {
        return b" missing ";
    };
    let is_put = drain.put(bytes).is_ok();
    folder.close_out(drain);
    if is_put { b" ok " } else { b" fault " }
}

// What is drawn of a file, how a file is then written, and what is drawn of the first again.
fn seen<F: Folder>(
    alloc: Global,
    folder: &mut F,
    file: &Line,
    other: &Line,
) -> Result<Vec<u8>, AllocError> {
    let mut text = drawn(alloc, folder, file)?;
    text.extend_from_slice(written(alloc, folder, other, b"xy\n"))?;
    let again = drawn(alloc, folder, file)?;
    text.extend_from_slice(&again)?;
    Ok(text)
}

// The same in a folder that has opened nothing.
fn seen_anew(rt: &HostRuntime, file: &Line, other: &Line) -> Result<Vec<u8>, Fail> {
    let mut folder = DirFolder::new(rt.alloc(), rt.clone()?);
    Ok(seen(rt.alloc(), &mut folder, file, other)?)
}

// How two files are written in one folder.
fn written_by_two(rt: &HostRuntime, first: &Line, second: &Line) -> Result<Vec<u8>, Fail> {
    let alloc = rt.alloc();
    let mut folder = DirFolder::new(alloc, rt.clone()?);
    let mut text = Vec::from_slice(alloc, written(alloc, &mut folder, first, b"x\n"))?;
    text.extend_from_slice(written(alloc, &mut folder, second, b"y\n"))?;
    Ok(text)
}

// Whether a file and what is then written to it are seen as this.
fn sees<F: Folder>(
    alloc: Global,
    folder: &mut F,
    file: &Line,
    wanted: &[u8],
) -> Result<bool, AllocError> {
    let text = seen(alloc, folder, file, file)?;
    Ok(text.as_slice() == wanted)
}

#[test]
fn the_real_folder_holds_files(rt: HostRuntime) -> Result<(), Fail> {
    let alloc = rt.alloc();
    let mut folder = DirFolder::new(alloc, rt.clone()?);
    let _ = fs::remove_file(&rt, "written_by_a_test.txt");
    let file = name(alloc, b"written_by_a_test.txt")?;
    for wanted in [b"missing ok xy\n".as_slice(), b"xy\n ok xy\n"] {
        assert!(rt; sees(alloc, &mut folder, &file, wanted)?);
    }
    fs::remove_file(&rt, "written_by_a_test.txt")?;
    let outer = name(alloc, b"../written_by_a_test.txt")?;
    assert!(rt; sees(alloc, &mut folder, &outer, b"missing missing missing")?);
    Ok(())
}

#[test]
fn the_real_folder_knows_a_file_by_its_links(rt: HostRuntime) -> Result<(), Fail> {
    let alloc = rt.alloc();
    let paths = [
        "told_by_a_test.txt",
        "hard_by_a_test.txt",
        "soft_by_a_test.txt",
    ];
    for path in paths {
        let _ = fs::remove_file(&rt, path);
    }
    fs::write(&rt, paths[0], "a\n")?;
    fs::hard_link(&rt, paths[0], paths[1])?;
    symlink(&rt, paths[0], paths[2])?;
    let file = name(alloc, b"told_by_a_test.txt")?;
    let hard = name(alloc, b"hard_by_a_test.txt")?;
    let soft = name(alloc, b"soft_by_a_test.txt")?;
    for link in [&hard, &soft] {
        let text = seen_anew(&rt, &file, link)?;
        assert_eq!(rt; text.as_slice(), b"a\n missing a\n".as_slice());
    }
    let text = written_by_two(&rt, &hard, &soft)?;
    assert_eq!(rt; text.as_slice(), b" ok  missing ".as_slice());
    let text = seen_anew(&rt, &file, &file)?;
    assert_eq!(rt; text.as_slice(), b"x\n ok xy\n".as_slice());
    for path in paths {
        fs::remove_file(&rt, path)?;
    }
    Ok(())
}
