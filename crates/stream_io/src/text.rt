// The text of a file: of a blueprint, or of a trace.
ghost use Rattle.std.specs.Prelude.{◌≡◌, ◌+◌, ◌<◌, ◌≤◌, ◌++◌, ◌⊎◌, length, take, drop, vec_len, IfOk, OnOk, OnErr, IfSome};
ghost use Rattle.stream_io.specs.Counts.{Rose, GrewAtMost};
ghost use Rattle.stream_io.specs.State.{LacksFile, SameFiles, StartsWithPiece};
ghost use Rattle.stream_io.specs.Quiet.{Quiet, QuietBut};
ghost use Rattle.stream_io.specs.Text.{text_limit, ReadsFile, ReadsUpTo, FailsToRead, StaysMissing, StaysQuiet};

use crate::outside::{Failed, Folder, OpenFault, Source};
use elem_core::line::Line;
use std::alloc::{AllocError, Global};

/// How many bytes of a blueprint's file are read: one more than the greatest length of a blueprint.
const TEXT_LIMIT: usize = 1_048_577;

/// How many bytes of a trace are read: one more than the greatest length of a trace that is followed.
pub const TRACE_LIMIT: usize = 67_108_865;

/// How many bytes one read asks for.
const PIECE: usize = 4096;

/// Why a file was not read.
#[derive(Drop)]
pub enum ReadEnd {
    /// The folder has no such file, or refused to open it.
    Missing,
    /// A read failed.
    Fault,
    NoMemory,
}

/// Why the bytes of a source were not read.
#[derive(Drop)]
enum PieceEnd {
    Fault,
    NoMemory,
}

/// Reads one piece behind the text, and says how many bytes it has; 0 is the end.
fn read_piece<S: Source>(
    source: &mut S,
    text: &mut Vec<u8>,
    limit: usize,
) -> Result<usize, PieceEnd>
    requires { vec_len text.old < limit }
    ensures text { IfOk result (λ n. vec_len text.new ≡ vec_len text.old + n) }
    ensures limit { IfOk result (λ n. vec_len text.new ≤ limit) }
    ensures given { IfOk result (λ n. (S.state source.new).given ≡ (S.state source.old).given + n) }
    ensures most { (S.state source.new).given + vec_len text.old ≤ (S.state source.old).given + limit }
    ensures bytes { IfOk result (λ n. IfSome (S.state source.old).whole (λ whole. text.new.items ≡ text.old.items
        ++ take n (drop (S.state source.old).given whole))) }
    ensures within { IfOk result (λ n. IfSome (S.state source.old).whole (λ whole. (S.state source.old).given + n ≤ length whole)) }
    ensures nothing { result ≡ Ok 0 → text.new.items ≡ text.old.items }
    ensures end { result ≡ Ok 0 → IfSome (S.state source.old).whole (λ whole. length whole ≤ (S.state source.old).given) }
    ensures no_fault { OnOk result ((S.state source.new).faults ≡ (S.state source.old).faults) }
    ensures no_memory { result ≡ Err PieceEnd.NoMemory → (S.state source.new).faults ≡ (S.state source.old).faults }
    ensures fault { result ≡ Err PieceEnd.Fault → Rose (S.state source.old).faults (S.state source.new).faults }
    ensures name { (S.state source.new).name ≡ (S.state source.old).name }
    ensures whole { (S.state source.new).whole ≡ (S.state source.old).whole }
{
    let mut piece = [0; PIECE];
    let room = PIECE.min(limit - text.len());
    let front = &mut piece[..room];
    match source.next_piece(front) {
        Ok(n) => match text.extend_from_slice(&front[..n]) {
            Ok(()) => Ok(n),
            Err(AllocError) => Err(PieceEnd::NoMemory),
        },
        Err(Failed) => Err(PieceEnd::Fault),
    }
}

/// Reads a source from its start to its end, or to that limit.
fn read_all<S: Source>(alloc: Global, source: &mut S, limit: usize) -> Result<Vec<u8>, PieceEnd>
    requires { (S.state source.old).given ≡ 0 }
    ensures text { IfOk result (λ text. IfSome (S.state source.old).whole (λ whole. text.items ≡ take limit whole)) }
    ensures most { (S.state source.new).given ≤ limit }
    ensures no_fault { OnOk result ((S.state source.new).faults ≡ (S.state source.old).faults) }
    ensures no_memory { result ≡ Err PieceEnd.NoMemory → (S.state source.new).faults ≡ (S.state source.old).faults }
    ensures fault { result ≡ Err PieceEnd.Fault → Rose (S.state source.old).faults (S.state source.new).faults }
    ensures name { (S.state source.new).name ≡ (S.state source.old).name }
    ensures whole { (S.state source.new).whole ≡ (S.state source.old).whole }
{
    let mut text = Vec::new(alloc);
    while text.len() < limit {
        match read_piece(source, &mut text, limit) {
            Ok(0) => return Ok(text),
            Ok(_) => {}
            Err(end) => return Err(end),
        }
    }
    Ok(text)
}

/// Reads the text of that name's file: its bytes, or the first of them up to the limit. No more are read, and none of another file, whatever
/// comes of it. It changes no file, and leaves as many open handles as there were.
pub fn read_up_to<F: Folder>(
    alloc: Global,
    folder: &mut F,
    name: &Line,
    limit: usize,
) -> Result<Vec<u8>, ReadEnd>
    ensures ok { IfOk result (λ text. ReadsUpTo limit (F.state folder.old) (F.state folder.new) name.now text.items) }
    ensures missing { result ≡ Err ReadEnd.Missing → StaysMissing (F.state folder.old) (F.state folder.new) name.now }
    ensures fault { result ≡ Err ReadEnd.Fault → FailsToRead (F.state folder.old) (F.state folder.new) name.now }
    ensures no_memory { result ≡ Err ReadEnd.NoMemory → StaysQuiet (F.state folder.old) (F.state folder.new) name.now }
    ensures most { GrewAtMost ((F.state folder.old).read name.now) limit ((F.state folder.new).read name.now) }
    ensures handles { F.handles folder.new ≡ F.handles folder.old }
{
    let mut source = match folder.open_in(alloc, name) {
        Ok(source) => source,
        Err(OpenFault::Missing) => return Err(ReadEnd::Missing),
        Err(OpenFault::NoMemory) => return Err(ReadEnd::NoMemory),
    };
    let read = read_all(alloc, &mut source, limit);
    folder.close_in(source);
    match read {
        Ok(text) => Ok(text),
        Err(PieceEnd::Fault) => Err(ReadEnd::Fault),
        Err(PieceEnd::NoMemory) => Err(ReadEnd::NoMemory),
    }
}

/// The same of a blueprint's file: its bytes, or the first 1,048,577 of them.
pub fn read_file<F: Folder>(alloc: Global, folder: &mut F, name: &Line) -> Result<Vec<u8>, ReadEnd>
    ensures ok { IfOk result (λ text. ReadsFile (F.state folder.old) (F.state folder.new) name.now text.items) }
    ensures missing { result ≡ Err ReadEnd.Missing → StaysMissing (F.state folder.old) (F.state folder.new) name.now }
    ensures fault { result ≡ Err ReadEnd.Fault → FailsToRead (F.state folder.old) (F.state folder.new) name.now }
    ensures no_memory { result ≡ Err ReadEnd.NoMemory → StaysQuiet (F.state folder.old) (F.state folder.new) name.now }
    ensures most { GrewAtMost ((F.state folder.old).read name.now) text_limit ((F.state folder.new).read name.now) }
    ensures handles { F.handles folder.new ≡ F.handles folder.old }
{
    read_up_to(alloc, folder, name, TEXT_LIMIT)
}
