// The texts of the generated files, put into a drain piece by piece.
ghost use Rattle.std.specs.Prelude.{◌≡◌, ◌+◌, ◌≤◌, ◌++◌, OnOk, OnErr, Err};
ghost use Rattle.std.specs.List.{flat_map, range_with_len};
ghost use Rattle.stream_io.specs.Putting.{Puts, PutsPart};
ghost use Rattle.run_report.specs.Texts.{line_of, numbered_lines, blueprint_text, text_of};
ghost use Rattle.run_report.specs.FileWriting.{PutsSome};

use crate::put::put_parts;
use itoa::Buffer;
use std::alloc::{AllocError, Global};
use stream_io::outside::{Drain, Failed};
use stream_io::put::put_all;

// Choice: docs/DECISIONS.md#lines-by-thousands
/// How many lines one piece has at most.
const PIECE: u32 = 1000;

/// A text that is generated: lines, so many of them, or the blueprint.
#[derive(Drop, Clone, Copy)]
pub(crate) enum Text {
    Lines(u32),
    Blueprint,
}

/// Why a text was not put whole.
#[derive(Drop)]
pub(crate) enum PutEnd {
    /// A write failed.
    Failed,
    NoMemory,
}

impl From<AllocError> for PutEnd {
    ghost use Rattle.std.specs.Prelude.{◌≡◌};
    ghost use Rattle.run_report.specs.declared.generator_put.PutEnd.TheVariants.{NoMemory};

    ghost from_gives = { λ _ e. e ≡ NoMemory };

    fn from(_error: AllocError) -> PutEnd {
        PutEnd::NoMemory
    }
}

/// Adds the line with this number, of n lines.
fn add_line(piece: &mut Vec<u8>, n: u32, number: u32) -> Result<(), AllocError>
    ensures { OnOk result (piece.new.items ≡ piece.old.items ++ line_of n number) }
{
    let mut buffer = Buffer::new();
    let value = (7919 * u64::from(number) + u64::from(n)) % 1000;
    piece.extend_from_slice(buffer.format(value).as_bytes())?;
    piece.push(b'\n')?;
    Ok(())
}

/// Makes a piece of lines, from the one behind so many.
fn fill(piece: &mut Vec<u8>, n: u32, before: u32, count: u32) -> Result<(), AllocError>
    requires { before + count ≤ 4294967295 }
    ensures { OnOk result (piece.new.items ≡ flat_map (line_of n) (range_with_len (before + 1) count)) }
{
    piece.clear();
    let mut done = 0;
    while done < count {
        done += 1;
        add_line(piece, n, before + done)?;
    }
    Ok(())
}

/// Puts n lines, a piece of them at a time.
fn put_lines<D: Drain>(alloc: Global, drain: &mut D, n: u32) -> Result<(), PutEnd>
    ensures ok { OnOk result (Puts (D.state drain.old) (D.state drain.new) (numbered_lines n)) }
    ensures failed { result ≡ Err PutEnd.Failed → PutsPart (D.state drain.old) (D.state drain.new) (numbered_lines n) }
    ensures no_memory { result ≡ Err PutEnd.NoMemory → PutsSome (D.state drain.old) (D.state drain.new) (numbered_lines n) }
{
    let mut piece = Vec::new(alloc);
    let mut done = 0;
    while done < n {
        let count = PIECE.min(n - done);
        fill(&mut piece, n, done, count)?;
        if let Err(Failed) = put_all(drain, &piece) {
            return Err(PutEnd::Failed);
        }
        done += count;
    }
    Ok(())
}

/// Puts the blueprint.
fn put_blueprint<D: Drain>(drain: &mut D) -> Result<(), Failed>
    ensures ok { OnOk result (Puts (D.state drain.old) (D.state drain.new) blueprint_text) }
    ensures err { OnErr result (PutsPart (D.state drain.old) (D.state drain.new) blueprint_text) }
{
    put_parts(
        drain,
        &[
            b"streams 1\n",
            b"source src lines gen.txt\n",
            b"stage n map num\n",
            b"stage b broadcast 2\n",
            b"stage e filter even\n",
            b"stage f fold sum\n",
            b"sink even lines gen.even\n",
            b"sink sum lines gen.sum\n",
            b"wire src.0 -> n.0 async 1\n",
            b"wire n.0 -> b.0\n",
            b"wire b.0 -> e.0 async 1\n",
            b"wire b.1 -> f.0 async 1\n",
            b"wire e.0 -> even.0\n",
            b"wire f.0 -> sum.0\n",
        ],
    )
}

/// Puts the text.
pub(crate) fn put_text<D: Drain>(alloc: Global, drain: &mut D, text: Text) -> Result<(), PutEnd>
    ensures ok { OnOk result (Puts (D.state drain.old) (D.state drain.new) (text_of text)) }
    ensures failed { result ≡ Err PutEnd.Failed → PutsPart (D.state drain.old) (D.state drain.new) (text_of text) }
    ensures no_memory { result ≡ Err PutEnd.NoMemory → PutsSome (D.state drain.old) (D.state drain.new) (text_of text) }
{
    match text {
        Text::Lines(n) => put_lines(alloc, drain, n),
        Text::Blueprint => match put_blueprint(drain) {
            Ok(()) => Ok(()),
            Err(Failed) => Err(PutEnd::Failed),
        },
    }
}
