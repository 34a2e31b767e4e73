// The trace of a run: what its stages chose.
ghost use Rattle.std.specs.Prelude.{◌≡◌, ◌+◌, ◌≤◌, ◌++◌, [], IsTrue, codes, length, map, vec_capacity, OnOk, OnErr};
ghost use Rattle.std.specs.List.{flat_map};
ghost use Rattle.plan_reader.specs.Text.{move_text, pick_line, trace_text};
ghost use Rattle.run_report.specs.Trace.{moves_in};
ghost use Rattle.stream_io.specs.Putting.{Puts, PutsPart};
ghost use Rattle.run_report.specs.Writing.{LeavesRest};

use elem_core::line::Line;
use itoa::Buffer;
use stream_io::outside::{Drain, Failed};
use stream_io::put::put_all;
use stream_model::outcome::PickList;

/// Whether there is room for a piece behind what is gathered.
fn has_room(gathered: &Vec<u8>, piece: &[u8]) -> bool
    ensures { IsTrue result → length gathered.now.items + length piece.now ≤ vec_capacity gathered.now }
{
    piece.len() <= gathered.capacity() - gathered.len()
}

/// Gathers a piece for which there is room.
fn gather(gathered: &mut Vec<u8>, piece: &[u8])
    requires { length gathered.old.items + length piece.now ≤ vec_capacity gathered.old }
    ensures { gathered.new.items ≡ gathered.old.items ++ piece.now }
{
    for byte in piece {
        gathered.push_reserved(*byte);
    }
}

/// Puts what is gathered, and then gathers from the start.
fn flush<D: Drain>(file: &mut D, gathered: &mut Vec<u8>) -> Result<(), Failed>
    ensures ok { OnOk result (Puts (D.state file.old) (D.state file.new) gathered.old.items) }
    ensures err { OnErr result (PutsPart (D.state file.old) (D.state file.new) gathered.old.items) }
    ensures emptied { OnOk result (gathered.new.items ≡ []) }
{
    put_all(file, gathered)?;
    gathered.clear();
    Ok(())
}

/// Gathers a piece, or puts it behind what is gathered where there is no room for it.
fn add<D: Drain>(file: &mut D, gathered: &mut Vec<u8>, piece: &[u8]) -> Result<(), Failed>
    ensures ok { OnOk result (LeavesRest (D.state file.old) (D.state file.new) (gathered.old.items ++ piece.now) gathered.new.items) }
    ensures err { OnErr result (PutsPart (D.state file.old) (D.state file.new) (gathered.old.items ++ piece.now)) }
{
    if has_room(gathered, piece) {
        gather(gathered, piece);
        Ok(())
    } else {
        flush(file, gathered)?;
        put_all(file, piece)
    }
}

/// Adds a move behind a space.
fn add_move<D: Drain>(file: &mut D, gathered: &mut Vec<u8>, m: u32) -> Result<(), Failed>
    ensures ok { OnOk result (LeavesRest (D.state file.old) (D.state file.new) (gathered.old.items ++ move_text m) gathered.new.items) }
    ensures err { OnErr result (PutsPart (D.state file.old) (D.state file.new) (gathered.old.items ++ move_text m)) }
{
    let mut buffer = Buffer::new();
    add(file, gathered, b" ")?;
    add(file, gathered, buffer.format(m).as_bytes())
}

/// Adds moves, each behind a space.
fn add_moves<D: Drain>(file: &mut D, gathered: &mut Vec<u8>, moves: &[u32]) -> Result<(), Failed>
    ensures ok { OnOk result (LeavesRest (D.state file.old) (D.state file.new) (gathered.old.items ++ flat_map move_text moves.now) gathered.new.items) }
    ensures err { OnErr result (PutsPart (D.state file.old) (D.state file.new) (gathered.old.items ++ flat_map move_text moves.now)) }
{
    for m in moves {
        add_move(file, gathered, *m)?;
    }
    Ok(())
}

/// Adds moves and the end of their line.
fn add_rest<D: Drain>(file: &mut D, gathered: &mut Vec<u8>, moves: &[u32]) -> Result<(), Failed>
    ensures ok { OnOk result (LeavesRest (D.state file.old) (D.state file.new) (gathered.old.items
        ++ (flat_map move_text moves.now ++ codes "\n")) gathered.new.items) }
    ensures err { OnErr result (PutsPart (D.state file.old) (D.state file.new) (gathered.old.items ++ (flat_map move_text moves.now ++ codes "\n"))) }
{
    add_moves(file, gathered, moves)?;
    add(file, gathered, b"\n")
}

/// Adds the beginning of a stage's line.
fn add_head<D: Drain>(file: &mut D, gathered: &mut Vec<u8>, name: &Line) -> Result<(), Failed>
    ensures ok { OnOk result (LeavesRest (D.state file.old) (D.state file.new) (gathered.old.items ++ (codes "pick " ++ name.now)) gathered.new.items) }
    ensures err { OnErr result (PutsPart (D.state file.old) (D.state file.new) (gathered.old.items ++ (codes "pick " ++ name.now))) }
{
    add(file, gathered, b"pick ")?;
    add(file, gathered, name.bytes())
}

/// Adds the line of a stage.
fn add_pick<D: Drain>(
    file: &mut D,
    gathered: &mut Vec<u8>,
    name: &Line,
    picks: &PickList,
) -> Result<(), Failed>
    ensures ok { OnOk result (LeavesRest (D.state file.old) (D.state file.new) (gathered.old.items
        ++ pick_line name.now (moves_in picks.now)) gathered.new.items) }
    ensures err { OnErr result (PutsPart (D.state file.old) (D.state file.new) (gathered.old.items ++ pick_line name.now (moves_in picks.now))) }
{
    add_head(file, gathered, name)?;
    add_rest(file, gathered, &picks.moves)
}

/// Adds the lines of stages, as many as there are both names and moves.
fn add_picks<D: Drain>(
    file: &mut D,
    gathered: &mut Vec<u8>,
    names: &[Line],
    picks: &[PickList],
) -> Result<(), Failed>
    ensures ok { OnOk result (LeavesRest (D.state file.old) (D.state file.new) (gathered.old.items
        ++ trace_text names.now (map moves_in picks.now)) gathered.new.items) }
    ensures err { OnErr result (PutsPart (D.state file.old) (D.state file.new) (gathered.old.items ++ trace_text names.now (map moves_in picks.now))) }
{
    for i in 0..names.len().min(picks.len()) {
        add_pick(file, gathered, &names[i], &picks[i])?;
    }
    Ok(())
}

// Choice: docs/DECISIONS.md#trace-in-pieces
/// Puts the trace of stages of these names, which made these moves: a line for each, with its name and its moves in decimal. It is
/// gathered in `room` and put in pieces of that room's size, without taking memory. On a failed write a first part of it was put.
/// Where there are more names than lists of moves, or more lists, those that are over have no line.
pub fn put_trace<D: Drain>(
    file: &mut D,
    names: &[Line],
    picks: &[PickList],
    room: Vec<u8>,
) -> Result<(), Failed>
    requires { room.items ≡ [] }
    ensures ok { OnOk result (Puts (D.state file.old) (D.state file.new) (trace_text names.now (map moves_in picks.now))) }
    ensures err { OnErr result (PutsPart (D.state file.old) (D.state file.new) (trace_text names.now (map moves_in picks.now))) }
{
    let mut gathered = room;
    add_picks(file, &mut gathered, names, picks)?;
    put_all(file, &gathered)
}
