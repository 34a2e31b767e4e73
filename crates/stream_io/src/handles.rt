// How many handles of a folder are open.
ghost use Rattle.std.specs.Prelude.{◌≡◌, ◌+◌, Err, IfOk, OnErr};

use crate::outside::OpenFault;

/// One open handle more. There is no number for a handle beyond 2^64 - 1, which is want of memory.
pub fn one_more(handles: u64) -> Result<u64, OpenFault>
    ensures more { IfOk result (λ n. n ≡ handles + 1) }
    ensures no_memory { OnErr result (result ≡ Err OpenFault.NoMemory) }
{
    match handles.checked_add(1) {
        Some(more) => Ok(more),
        None => Err(OpenFault::NoMemory),
    }
}
