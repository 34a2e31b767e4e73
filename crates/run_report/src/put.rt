// All of several pieces into a drain.
ghost use Rattle.std.specs.Prelude.{OnOk, OnErr};
ghost use Rattle.std.specs.List.{flat_map};
ghost use Rattle.stream_io.specs.Putting.{Puts, PutsPart};

use stream_io::outside::{Drain, Failed};
use stream_io::put::put_all;

/// Puts all bytes of several pieces, one after another. On a failed write a first part of them was put.
pub fn put_parts<D: Drain>(drain: &mut D, parts: &[&[u8]]) -> Result<(), Failed>
    ensures ok { OnOk result (Puts (D.state drain.old) (D.state drain.new) (flat_map (λ part. part.now) parts.now)) }
    ensures err { OnErr result (PutsPart (D.state drain.old) (D.state drain.new) (flat_map (λ part. part.now) parts.now)) }
{
    for part in parts {
        put_all(drain, part)?;
    }
    Ok(())
}
