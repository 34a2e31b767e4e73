// What the programs call: the words of a process, and the exit code. The folder of a run that is done is the real one.
ghost use Rattle.std.specs.Io.{WritesAtMost};

use process_words::words::words_of;
use std::alloc::Global;
use std::env::FillError;
use std::fs;
use std::process::ExitCode;
use std::rt::Env;
use std::sync::atomic::{AtomicU64, Ordering};
use std::sync::{Arc, Mutex, Wait};
use std::test::Fail;
use std::thread::Threads;
use stream_io::mem_drain::MemDrain;
use stream_io::outside::Folder;
use stream_io::real::DirFolder;
use stream_notes::folder::NotedFolder;
use stream_notes::process::call_shipped;
use stream_notes::progress::Watch;
use stream_notes::wish::Wish;

const USAGE: &[u8] = b"usage: streams (FILE | --gen N) [--workers N] [--turns N] [--trace FILE]\n";

// The words of a process that was started with them.
#[derive(Drop)]
struct Started<'a> {
    words: &'a [&'a [u8]],
}

impl Env for Started<'_> {
    fn arg(&self, i: usize, buf: &mut [u8]) -> Result<usize, FillError> {
        let Some(word) = self.words.get(i) else {
            return Err(FillError::NotPresent);
        };
        if word.len() > buf.len() {
            return Err(FillError::TooLong);
        }
        buf[..word.len()].copy_from_slice(word);
        Ok(word.len())
    }

    fn var(&self, _name: &str, _buf: &mut [u8]) -> Result<usize, FillError> {
        Err(FillError::NotPresent)
    }

    fn var_at(&self, _i: usize, _buf: &mut [u8]) -> Result<usize, FillError> {
        Err(FillError::NotPresent)
    }
}

// A clock that goes on by a second at each look, and keeps what is told.
#[derive(Drop)]
struct Ticking {
    time: AtomicU64,
    told: Arc<Mutex<Vec<u8>>>,
}

impl Watch for Ticking {
    fn millis(&self) -> Option<u64> {
        Some(self.time.fetch_add(1000, Ordering::SeqCst))
    }

    fn tell(&mut self, text: &[u8]) {
        if let Some(mut told) = self.told.try_lock() {
            let _ = told.extend_from_slice(text);
        }
    }
}

// The real folder with this wish for progress, and what will be told of that.
fn noted(
    rt: &HostRuntime,
    wish: Wish,
) -> Result<
    (
        NotedFolder<DirFolder<HostRuntime>, Ticking>,
        Arc<Mutex<Vec<u8>>>,
    ),
    Fail,
> {
    let alloc = rt.alloc();
    let told = Arc::new(alloc, Mutex::new(Vec::new(alloc)))?;
    let ticking = Ticking {
        time: AtomicU64::new(0),
        told: Arc::try_clone(&told)?,
    };
    let folder = DirFolder::new(alloc, rt.clone()?);
    Ok((NotedFolder::new(alloc, folder, ticking, wish), told))
}

// Whether a process with these words says this text, and ends with this code.
fn tells<R: Threads + Wait + Sync, F: Folder, W: Watch + Send>(
    rt: &R,
    alloc: Global,
    folder: &mut NotedFolder<F, W>,
    words: &[&[u8]],
    code: u8,
    text: &[u8],
) -> Result<bool, Fail> {
    let words = words_of(&Started { words }, alloc);
    let mut console = MemDrain::new(alloc, Vec::new(alloc), 7, 1000)?;
    let mut faults = MemDrain::new(alloc, Vec::new(alloc), 7, 1000)?;
    let ended = call_shipped(rt, alloc, words, folder, &mut console, &mut faults);
    Ok(ended == ExitCode::from(code) && console.bytes() == text)
}

#[test]
fn words_that_are_no_text_are_no_command(rt: HostRuntime) -> Result<(), Fail> {
    let alloc = rt.alloc();
    let (mut folder, _) = noted(&rt, Wish::Nothing)?;
    let mut long = Vec::new(alloc);
    long.resize(65_537, b'a')?;
    for word in [b"\xff".as_slice(), b"--trace=\xff", b"a\nb", &long] {
        assert!(rt; tells(&rt, alloc, &mut folder, &[b"streams", word], 1, USAGE)?);
    }
    Ok(())
}

// Whether these are the words that are wanted, and no others.
fn are(words: &[Vec<u8>], wanted: &[&[u8]]) -> bool {
    for i in 0..wanted.len() {
        match words.get(i) {
            Some(word) if word.as_slice() == wanted[i] => {}
            _ => return false,
        }
    }
    words.len() == wanted.len()
}

#[test]
fn all_words_are_read(rt: HostRuntime) -> Result<(), Fail> {
    let alloc = rt.alloc();
    let mut long = Vec::new(alloc);
    long.resize(1000, b'\xff')?;
    let wanted = [b"streams".as_slice(), b"", &long, b"--gen"];
    let words = words_of(&Started { words: &wanted }, alloc)?;
    assert!(rt; are(&words, &wanted));
    Ok(())
}

// Whether a file holds this text. It is removed.
fn held(rt: &HostRuntime, name: &str, text: &[u8]) -> Result<bool, Fail> {
    let is_held = fs::read(rt, name)?.as_slice() == text;
    fs::remove_file(rt, name)?;
    Ok(is_held)
}

#[test]
fn a_generated_run_fills_the_real_folder(rt: HostRuntime) -> Result<(), Fail> {
    let alloc = rt.alloc();
    let (mut folder, told) = noted(&rt, Wish::Every(1))?;
    let words = [b"streams".as_slice(), b"--gen", b"4"];
    let said = b"done\nsink even ended 2\nsink sum ended 1\n";
    assert!(rt; tells(&rt, alloc, &mut folder, &words, 0, said)?);
    let first =
        b"after 1 s: read gen.txt 0 (0 a second), wrote gen.even 0 (0 a second), wrote gen.sum 0 (0 a second)\nafter 2 s: read gen.txt 4 (4 a second), wrote gen.even ";
    assert!(rt; told.try_lock().is_some_and(|told| told.starts_with(first)));
    for (name, text) in [
        ("gen.txt", b"923\n842\n761\n680\n".as_slice()),
        ("gen.even", b"842\n680\n"),
        ("gen.sum", b"3206\n"),
    ] {
        assert!(rt; held(&rt, name, text)?);
    }
    fs::remove_file(&rt, "gen.blue")?;
    Ok(())
}
