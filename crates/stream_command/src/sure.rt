// The run of a file over a folder of which no call fails.
ghost use Rattle.std.specs.Prelude.{◌<◌, ◌≤◌, IsTrue};
ghost use Rattle.std.specs.List.{All};
ghost use Rattle.std.specs.Option.{option_copied};
ghost use Rattle.elem_core.specs.declared.count.TheConstants.{MOST_COUNT};
ghost use Rattle.stream_command.specs.RunCalls.{answer_of};
ghost use Rattle.stream_command.specs.Outcome.{IsValid, Told, RanWithoutFault};
ghost use Rattle.materializer.specs.HandedPlugs.{GivesAsListed};
ghost use Rattle.materializer.specs.HandedCustoms.{TellsAsListed};
ghost use Rattle.stream_command.specs.Asked.{plugged_by};

use crate::top::{RunEnd, run_file};
use elem_core::line::Line;
use graph_stage::custom::Custom;
use graph_stage::handlers::Handlers;
use plug_logic::book::PlugBook;
use plug_logic::logic::Logic;
use plug_logic::plug::Plug;
use std::alloc::Global;
use std::sync::Wait;
use std::thread::Threads;
use stream_io::outside::{Drain, Folder};
use stream_io::sure::SureFolder;

/// The same over a folder whose counts never rise: it answers as `run_file` does (`told`), and a valid text and inputs give a run, and no write of it failed, or memory was wanting (`runs`). So no answer of a run is hidden behind a fault that did not happen.
pub fn run_surely<
    R: Threads + Wait + Sync,
    C: Drain,
    L: Logic + Send,
    H: Handlers + Send,
    B: PlugBook + Send,
>(
    rt: &R,
    alloc: Global,
    file: &Line,
    trace: Option<&Line>,
    replay: Option<&Line>,
    workers: u32,
    turns: u32,
    folder: &mut SureFolder,
    console: &mut C,
    plugs: Vec<Plug<L>>,
    customs: Vec<Custom<H>>,
) -> RunEnd
    requires listed { All (GivesAsListed L.gives B.lists) plugs.items }
    requires customs { All (TellsAsListed H.tells B.lists) customs.items }
    requires workers { (0 < workers) × (workers ≤ 64) }
    requires turns { turns ≤ MOST_COUNT }
    ensures told { IsTrue (⟦<SureFolder as Folder>⟧.state folder.old).tells → Told (plugged_by B.lists plugs.items customs.items) (answer_of result)
        (record { file = file.now; trace = option_copied trace.entry; replay = option_copied replay.entry; turns = turns })
        (⟦<SureFolder as Folder>⟧.state folder.old)
        (⟦<SureFolder as Folder>⟧.state folder.new) }
    ensures runs { IsTrue (⟦<SureFolder as Folder>⟧.state folder.old).tells
        → IsValid (plugged_by B.lists plugs.items customs.items) file.now
        (option_copied trace.entry) (option_copied replay.entry)
        (⟦<SureFolder as Folder>⟧.state folder.old) → RanWithoutFault result.status }
{
    run_file::<R, SureFolder, C, L, H, B>(
        rt, alloc, file, trace, replay, workers, turns, folder, console, plugs, customs,
    )
}
