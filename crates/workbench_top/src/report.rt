// The report that is read from the input.
ghost use Rattle.std.specs.Prelude.{◌<◌, ◌≤◌, vec_len, IfOk, IsTrue};

use elem_core::why::NoMemory;
use std::alloc::Global;
use stream_io::outside::Source;

/// How many bytes of a report are read.
const REPORT_LIMIT: usize = 1_048_577;

/// How many bytes one read asks for.
const PIECE: usize = 4096;

/// Why a report was not read.
#[derive(Drop)]
pub(crate) enum ReportEnd {
    /// A read failed.
    Fault,
    NoMemory,
}

/// The words of a line of a report, which are parted by one space each.
pub(crate) fn words_of(alloc: Global, line: &[u8]) -> Result<Vec<&[u8]>, NoMemory> {
    let mut words = Vec::new(alloc);
    for word in line.split(|byte| *byte == b' ') {
        words.push(word)?;
    }
    Ok(words)
}

/// Reads one piece behind the report, and says whether there was one.
fn read_piece<S: Source>(input: &mut S, report: &mut Vec<u8>) -> Result<bool, ReportEnd>
    requires { vec_len report.old < 1048577 }
    ensures grows { IfOk result (λ more. IsTrue more → vec_len report.old < vec_len report.new) }
    ensures limit { IfOk result (λ _. vec_len report.new ≤ 1048577) }
{
    let mut piece = [0; PIECE];
    let room = PIECE.min(REPORT_LIMIT - report.len());
    let front = &mut piece[..room];
    match input.next_piece(front) {
        Ok(0) => Ok(false),
        Ok(n) => match report.extend_from_slice(&front[..n]) {
            Ok(()) => Ok(true),
            Err(_) => Err(ReportEnd::NoMemory),
        },
        Err(_) => Err(ReportEnd::Fault),
    }
}

/// The report: all bytes of the input, or the first 1,048,577 of them.
pub(crate) fn read_report<S: Source>(alloc: Global, input: &mut S) -> Result<Vec<u8>, ReportEnd> {
    let mut report = Vec::new(alloc);
    while report.len() < REPORT_LIMIT {
        if !read_piece(input, &mut report)? {
            return Ok(report);
        }
    }
    Ok(report)
}
