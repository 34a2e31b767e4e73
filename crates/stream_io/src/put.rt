// All of a piece into a drain.
ghost use Rattle.std.specs.Prelude.{OnOk, OnErr};
ghost use Rattle.stream_io.specs.Putting.{Puts, PutsPart};

use crate::outside::{Drain, Failed};

/// Puts all bytes of a piece, however many the drain takes at once. On a failed write a first part of them was put.
pub fn put_all<D: Drain>(drain: &mut D, piece: &[u8]) -> Result<(), Failed>
    ensures ok { OnOk result (Puts (D.state drain.old) (D.state drain.new) piece.now) }
    ensures err { OnErr result (PutsPart (D.state drain.old) (D.state drain.new) piece.now) }
{
    let mut done = 0;
    while done < piece.len() {
        let (_, rest) = piece.split_at(done);
        done += drain.put(rest)?;
    }
    Ok(())
}
