// The report on the console.
ghost use Rattle.std.specs.Prelude.{◌≡◌, [], ◌++◌, codes, if◌then◌else◌, OnOk, OnErr};
ghost use Rattle.std.specs.Fmt.{decimal};
ghost use Rattle.std.specs.List.{flat_map};
ghost use Rattle.blue_words.specs.Fault.{number_of_kind};
ghost use Rattle.blue_check.specs.Number.{number_of_fault};
ghost use Rattle.blue_check.specs.Detail.{detail_text};
ghost use Rattle.run_report.specs.Report.{detail_of, status_text, why_text, cause_text, end_text, blame_text, sink_line, wire_line, wire_lines, wires_text, report_of, code_of};
ghost use Rattle.stream_io.specs.Putting.{Puts, PutsPart};

use crate::outcome::{SinkEnd, Status};
use crate::put::put_parts;
use blue_check::fault::CheckFault;
use blue_words::fault::{BlueFault, kind_number};
use elem_core::why::{Cause, Why};
use itoa::Buffer;
use stream_io::outside::{Drain, Failed};
use stream_model::outcome::{EndState, WireCount};

/// The exit code of a status.
pub fn code(status: &Status) -> u8
    ensures { result ≡ code_of status.now }
{
    match status {
        Status::Done => 0,
        Status::Usage => 1,
        Status::Refused(_) | Status::Unfit(_) | Status::BadTrace(_) | Status::Misfit(_, _) => 2,
        Status::StreamFailed => 3,
        Status::Stalled => 4,
        Status::OutOfTurns => 5,
        Status::Missing(_) => 6,
        Status::ReadFault => 7,
        Status::WriteFault => 8,
        Status::NoMemory => 9,
    }
}

/// The word for a sink's end.
fn end_word(end: EndState) -> &'static [u8]
    ensures { result.now ≡ end_text end }
{
    match end {
        EndState::Ended => b"ended",
        EndState::Failed(_) => b"failed",
        EndState::Unended => b"unended",
        EndState::WriteFault => b"fault",
    }
}

/// Puts how many units were used.
fn put_used<D: Drain>(console: &mut D, used: u64) -> Result<(), Failed>
    ensures ok { OnOk result (Puts (D.state console.old) (D.state console.new) (codes "out of turns " ++ decimal used ++ codes "\n")) }
    ensures err { OnErr result (PutsPart (D.state console.old) (D.state console.new) (codes "out of turns " ++ decimal used ++ codes "\n")) }
{
    let mut buffer = Buffer::new();
    put_parts(
        console,
        &[b"out of turns ", buffer.format(used).as_bytes(), b"\n"],
    )
}

/// Puts the line of a text's first fault, of which these are the texts.
fn put_refused_texts<'a, D: Drain>(
    console: &mut D,
    line: &'a [u8],
    number: &'a [u8],
) -> Result<(), Failed>
    ensures ok { OnOk result (Puts (D.state console.old) (D.state console.new) (codes "refused line " ++ line.now ++ codes " fault " ++ number.now
        ++ codes "\n")) }
    ensures err { OnErr result (PutsPart (D.state console.old) (D.state console.new)
        (codes "refused line " ++ line.now ++ codes " fault " ++ number.now ++ codes "\n")) }
{
    put_parts(
        console,
        &[b"refused line ", line, b" fault ", number, b"\n"],
    )
}

/// Puts the line of a text's first fault.
fn put_refused<D: Drain>(console: &mut D, fault: BlueFault) -> Result<(), Failed>
    ensures ok { OnOk result (Puts (D.state console.old) (D.state console.new) (codes "refused line " ++ decimal fault.line ++ codes " fault "
        ++ decimal (number_of_kind fault.kind) ++ codes "\n")) }
    ensures err { OnErr result (PutsPart (D.state console.old) (D.state console.new)
        (codes "refused line " ++ decimal fault.line ++ codes " fault " ++ decimal (number_of_kind fault.kind) ++ codes "\n")) }
{
    let mut line = Buffer::new();
    let mut number = Buffer::new();
    put_refused_texts(
        console,
        line.format(fault.line).as_bytes(),
        number.format(kind_number(fault.kind)).as_bytes(),
    )
}

/// Puts the number of the line at fault in the file of moves.
fn put_bad_trace<D: Drain>(console: &mut D, line: u32) -> Result<(), Failed>
    ensures ok { OnOk result (Puts (D.state console.old) (D.state console.new) (codes "trace line " ++ decimal line ++ codes "\n")) }
    ensures err { OnErr result (PutsPart (D.state console.old) (D.state console.new) (codes "trace line " ++ decimal line ++ codes "\n")) }
{
    let mut buffer = Buffer::new();
    put_parts(
        console,
        &[b"trace line ", buffer.format(line).as_bytes(), b"\n"],
    )
}

/// Puts the stage that could not make its move, and the place of that move.
fn put_misfit<D: Drain>(console: &mut D, node: u32, place: u32) -> Result<(), Failed>
    ensures ok { OnOk result (Puts (D.state console.old) (D.state console.new)
        (codes "misfit stage " ++ decimal node ++ codes " pick " ++ decimal place ++ codes "\n")) }
    ensures err { OnErr result (PutsPart (D.state console.old) (D.state console.new)
        (codes "misfit stage " ++ decimal node ++ codes " pick " ++ decimal place ++ codes "\n")) }
{
    let mut stage = Buffer::new();
    let mut pick = Buffer::new();
    put_parts(
        console,
        &[
            b"misfit stage ",
            stage.format(node).as_bytes(),
            b" pick ",
            pick.format(place).as_bytes(),
            b"\n",
        ],
    )
}

/// Puts the line of a rule that is broken, of which this is the detail.
fn put_unfit<D: Drain>(console: &mut D, fault: &CheckFault, detail: &[u8]) -> Result<(), Failed>
    requires { detail.now ≡ detail_text fault.now }
    ensures ok { OnOk result (Puts (D.state console.old) (D.state console.new)
        (codes "unfit " ++ decimal (number_of_fault fault.now) ++ detail_text fault.now ++ codes "\n")) }
    ensures err { OnErr result (PutsPart (D.state console.old) (D.state console.new)
        (codes "unfit " ++ decimal (number_of_fault fault.now) ++ detail_text fault.now ++ codes "\n")) }
{
    let mut number = Buffer::new();
    put_parts(
        console,
        &[
            b"unfit ",
            number.format(fault.number()).as_bytes(),
            detail,
            b"\n",
        ],
    )
}

/// Puts the line of a status, where so many units were used and `detail` is that of a rule that is broken.
fn put_status<D: Drain>(
    console: &mut D,
    status: &Status,
    detail: &[u8],
    used: u64,
) -> Result<(), Failed>
    requires { detail.now ≡ detail_of status.now }
    ensures ok { OnOk result (Puts (D.state console.old) (D.state console.new) (status_text status.now used ++ codes "\n")) }
    ensures err { OnErr result (PutsPart (D.state console.old) (D.state console.new) (status_text status.now used ++ codes "\n")) }
{
    match status {
        Status::Done => put_parts(console, &[b"done\n"]),
        Status::Usage => put_parts(
            console,
            &[b"usage: streams (FILE | --gen N) [--workers N] [--turns N] [--trace FILE]\n"],
        ),
        Status::Refused(fault) => put_refused(console, *fault),
        Status::Unfit(fault) => put_unfit(console, fault, detail),
        Status::StreamFailed => put_parts(console, &[b"failed\n"]),
        Status::Stalled => put_parts(console, &[b"stalled\n"]),
        Status::OutOfTurns => put_used(console, used),
        Status::BadTrace(line) => put_bad_trace(console, *line),
        Status::Misfit(stage, pick) => put_misfit(console, *stage, *pick),
        Status::Missing(name) => put_parts(console, &[b"missing ", name.bytes(), b"\n"]),
        Status::ReadFault => put_parts(console, &[b"read fault\n"]),
        Status::WriteFault => put_parts(console, &[b"write fault\n"]),
        Status::NoMemory => put_parts(console, &[b"no memory\n"]),
    }
}

/// Puts the number of a reason.
fn put_why<D: Drain>(console: &mut D, why: Why) -> Result<(), Failed>
    ensures ok { OnOk result (Puts (D.state console.old) (D.state console.new) (why_text why)) }
    ensures err { OnErr result (PutsPart (D.state console.old) (D.state console.new) (why_text why)) }
{
    let mut buffer = Buffer::new();
    match why {
        Why::Plug(code) => put_parts(console, &[b"15/", buffer.format(code).as_bytes()]),
        Why::IllegalCall(code) => put_parts(console, &[b"16/", buffer.format(code).as_bytes()]),
        why => put_parts(console, &[buffer.format(why.number()).as_bytes()]),
    }
}

/// Puts the place of a failure.
fn put_place<D: Drain>(console: &mut D, cause: &Cause) -> Result<(), Failed>
    ensures ok { OnOk result (Puts (D.state console.old) (D.state console.new) (codes " stage " ++ decimal cause.now.stage ++ codes " nth "
        ++ decimal cause.now.nth ++ codes " why ")) }
    ensures err { OnErr result (PutsPart (D.state console.old) (D.state console.new)
        (codes " stage " ++ decimal cause.now.stage ++ codes " nth " ++ decimal cause.now.nth ++ codes " why ")) }
{
    let mut stage = Buffer::new();
    let mut nth = Buffer::new();
    put_parts(
        console,
        &[
            b" stage ",
            stage.format(cause.stage).as_bytes(),
            b" nth ",
            nth.format(cause.nth).as_bytes(),
            b" why ",
        ],
    )
}

/// Puts what is to blame.
fn put_cause<D: Drain>(console: &mut D, cause: &Cause) -> Result<(), Failed>
    ensures ok { OnOk result (Puts (D.state console.old) (D.state console.new) (cause_text cause.now)) }
    ensures err { OnErr result (PutsPart (D.state console.old) (D.state console.new) (cause_text cause.now)) }
{
    put_place(console, cause)?;
    put_why(console, cause.why)
}

/// Puts what is said of the cause of a sink's end.
fn put_blame<D: Drain>(console: &mut D, end: &EndState) -> Result<(), Failed>
    ensures ok { OnOk result (Puts (D.state console.old) (D.state console.new) (blame_text end.now)) }
    ensures err { OnErr result (PutsPart (D.state console.old) (D.state console.new) (blame_text end.now)) }
{
    match end {
        EndState::Failed(cause) => put_cause(console, cause),
        _ => Ok(()),
    }
}

/// Puts the name of a sink, how it ended and its count, of which these are the texts.
fn put_sink_texts<'a, D: Drain>(
    console: &mut D,
    name: &'a [u8],
    end: &'a [u8],
    count: &'a [u8],
) -> Result<(), Failed>
    ensures ok { OnOk result (Puts (D.state console.old) (D.state console.new) (codes "sink " ++ name.now ++ codes " " ++ end.now ++ codes " " ++ count.now)) }
    ensures err { OnErr result (PutsPart (D.state console.old) (D.state console.new)
        (codes "sink " ++ name.now ++ codes " " ++ end.now ++ codes " " ++ count.now)) }
{
    put_parts(console, &[b"sink ", name, b" ", end, b" ", count])
}

/// Puts the end of a sink's line.
fn put_rest<D: Drain>(console: &mut D, end: &EndState) -> Result<(), Failed>
    ensures ok { OnOk result (Puts (D.state console.old) (D.state console.new) (blame_text end.now ++ codes "\n")) }
    ensures err { OnErr result (PutsPart (D.state console.old) (D.state console.new) (blame_text end.now ++ codes "\n")) }
{
    put_blame(console, end)?;
    put_parts(console, &[b"\n"])
}

/// Puts the name of a sink, how it ended and its count.
fn put_head<D: Drain>(console: &mut D, sink: &SinkEnd) -> Result<(), Failed>
    ensures ok { OnOk result (Puts (D.state console.old) (D.state console.new) (codes "sink " ++ sink.now.name ++ codes " " ++ end_text sink.now.end
        ++ codes " " ++ decimal sink.now.count)) }
    ensures err { OnErr result (PutsPart (D.state console.old) (D.state console.new)
        (codes "sink " ++ sink.now.name ++ codes " " ++ end_text sink.now.end ++ codes " " ++ decimal sink.now.count)) }
{
    let mut buffer = Buffer::new();
    let count = buffer.format(sink.count).as_bytes();
    put_sink_texts(console, sink.name.bytes(), end_word(sink.end), count)
}

// Choice: docs/DECISIONS.md#sink-lines-after-failures
/// Puts the line of a sink.
fn put_sink<D: Drain>(console: &mut D, sink: &SinkEnd) -> Result<(), Failed>
    ensures ok { OnOk result (Puts (D.state console.old) (D.state console.new) (sink_line sink.now)) }
    ensures err { OnErr result (PutsPart (D.state console.old) (D.state console.new) (sink_line sink.now)) }
{
    put_head(console, sink)?;
    put_rest(console, &sink.end)
}

/// Puts a line for each sink.
fn put_sinks<D: Drain>(console: &mut D, sinks: &[SinkEnd]) -> Result<(), Failed>
    ensures ok { OnOk result (Puts (D.state console.old) (D.state console.new) (flat_map sink_line sinks.now)) }
    ensures err { OnErr result (PutsPart (D.state console.old) (D.state console.new) (flat_map sink_line sinks.now)) }
{
    for sink in sinks {
        put_sink(console, sink)?;
    }
    Ok(())
}

/// Whether an ask of a wire is not answered.
fn asked_word(asked: bool) -> &'static [u8]
    ensures { result.now ≡ (if asked then codes " asked" else codes " unasked") }
{
    if asked { b" asked" } else { b" unasked" }
}

/// Whether an end of a wire has closed it.
fn shut_word(shut: bool) -> &'static [u8]
    ensures { result.now ≡ (if shut then codes " shut" else codes " live") }
{
    if shut { b" shut" } else { b" live" }
}

/// Puts the line of wire n.
fn put_wire<D: Drain>(console: &mut D, n: u64, wire: &WireCount) -> Result<(), Failed>
    ensures ok { OnOk result (Puts (D.state console.old) (D.state console.new) (wire_line n wire.now)) }
    ensures err { OnErr result (PutsPart (D.state console.old) (D.state console.new) (wire_line n wire.now)) }
{
    let mut number = Buffer::new();
    let mut sent = Buffer::new();
    put_parts(
        console,
        &[
            b"wire ",
            number.format(n).as_bytes(),
            b" sent ",
            sent.format(wire.sent).as_bytes(),
            asked_word(wire.asked),
            shut_word(wire.shut),
            b"\n",
        ],
    )
}

/// Puts a line for each wire.
fn put_wires<D: Drain>(console: &mut D, wires: &[WireCount]) -> Result<(), Failed>
    ensures ok { OnOk result (Puts (D.state console.old) (D.state console.new) (wire_lines 0 wires.now)) }
    ensures err { OnErr result (PutsPart (D.state console.old) (D.state console.new) (wire_lines 0 wires.now)) }
{
    for n in 0..wires.len() {
        put_wire(console, n as u64, &wires[n])?;
    }
    Ok(())
}

/// Puts a line for each wire where the status says that a sink has not ended.
fn put_picture<D: Drain>(
    console: &mut D,
    status: &Status,
    wires: &[WireCount],
) -> Result<(), Failed>
    ensures ok { OnOk result (Puts (D.state console.old) (D.state console.new) (wires_text status.now wires.now)) }
    ensures err { OnErr result (PutsPart (D.state console.old) (D.state console.new) (wires_text status.now wires.now)) }
{
    match status {
        Status::Stalled | Status::OutOfTurns => put_wires(console, wires),
        _ => Ok(()),
    }
}

/// Puts what is told of a run.
fn put_run<D: Drain>(
    console: &mut D,
    status: &Status,
    sinks: &[SinkEnd],
    wires: &[WireCount],
) -> Result<(), Failed>
    ensures ok { OnOk result (Puts (D.state console.old) (D.state console.new) (flat_map sink_line sinks.now ++ wires_text status.now wires.now)) }
    ensures err { OnErr result (PutsPart (D.state console.old) (D.state console.new) (flat_map sink_line sinks.now ++ wires_text status.now wires.now)) }
{
    put_sinks(console, sinks)?;
    put_picture(console, status, wires)
}

/// Puts the report: the line of the status, one for each sink, and where a sink has not ended one for each wire. `detail` is what
/// is told of a rule that is broken, and empty for every other status. It takes no memory.
pub fn put_report<D: Drain>(
    console: &mut D,
    status: &Status,
    detail: &[u8],
    sinks: &[SinkEnd],
    wires: &[WireCount],
    used: u64,
) -> Result<(), Failed>
    requires { detail.now ≡ detail_of status.now }
    ensures ok { OnOk result (Puts (D.state console.old) (D.state console.new) (report_of
        (record { status = status.now; sinks = sinks.now; wires = wires.now; picks = []; used = used }))) }
    ensures err { OnErr result (PutsPart (D.state console.old) (D.state console.new)
        (report_of (record { status = status.now; sinks = sinks.now; wires = wires.now; picks = []; used = used }))) }
{
    put_status(console, status, detail, used)?;
    put_run(console, status, sinks, wires)
}
