// The whole call with the plugs and the custom stages that the program ships.
ghost use Rattle.std.specs.Prelude.{◌≡◌, ◌⊎◌, ◌↔◌, ◌≢◌, ◌++◌, ◌∷◌, [], List, ℕ, Some, None, IsTrue, OnOk, map, codes};
ghost use Rattle.std.specs.List.{All};
ghost use Rattle.plug_logic.specs.Gives.{listed};
ghost use Rattle.plug_logic.specs.Shipped.{shipped_book};
ghost use Rattle.stage_linear.specs.Plugs.{Is};
ghost use Rattle.stream_io.specs.Counts.{GrewAtMost};
ghost use Rattle.run_report.specs.Asking.{Asked, asked_of};
ghost use Rattle.stream_io.specs.Text.{text_limit};
ghost use Rattle.run_report.specs.Report.{report_of, code_of};
ghost use Rattle.stream_io.specs.Putting.{Puts, PutsPart};
ghost use Rattle.stream_command.specs.Answers.{AnswersCommand, IsValidFor};
ghost use Rattle.stream_command.specs.Calls.{answer_of, RoseNowhere, WasRun};
ghost use Rattle.stream_command.specs.Receipts.{ReceiptsOf, IslandsOf};
ghost use Rattle.stream_model.specs.Heads.{shipped_heads, shipped_shapes};
ghost use Rattle.stream_model.specs.Known.{head_shape};
ghost use Rattle.stream_command.specs.Heads.{shipped_plugs};
ghost use Rattle.stream_command.specs.Behaviours.{Behaves, alternate_behaviour, rude_behaviour, shipped_behaviour};

use crate::run::run_streams;
use crate::{RunEnd, end_before_run};
use elem_core::line::Line;
use elem_core::why::NoMemory;
use graph_stage::alternate::Alternate;
use graph_stage::custom::Custom;
use graph_stage::handlers::Handlers;
use graph_stage::rude::Rude;
use plug_logic::book::Shipped;
use plug_logic::dedup::Dedup;
use plug_logic::logic::Logic;
use plug_logic::pair_sum::PairSum;
use plug_logic::plug::Plug;
use run_report::outcome::Status;
use std::alloc::Global;
use std::sync::Wait;
use std::thread::Threads;
use stream_io::outside::{Drain, Folder};
use stream_model::head::{CustomHead, PlugHead};
use stream_model::heads::{alternate_head, dedup_head, pairsum_head, rude_head};

/// One more plug, whose logic gives what the book of the program lists of its name.
fn add(plugs: &mut Vec<Plug>, head: PlugHead, logic: Box<dyn Logic + Send>) -> Result<(), NoMemory>
    requires kept { All (λ p. Is (gives p.logic) [] (listed shipped_book p.head.name)) plugs.old.items }
    requires listed { gives logic ≡ listed shipped_book head.name }
    ensures kept { OnOk result (All (λ p. Is (gives p.logic) [] (listed shipped_book p.head.name)) plugs.new.items) }
    ensures heads { OnOk result (map (λ p. p.head) plugs.new.items ≡ map (λ p. p.head) plugs.old.items ++ head ∷ []) }
{
    plugs.push(Plug { head, logic })?;
    Ok(())
}

/// Both plugs of the program, with their heads.
fn add_both(
    alloc: Global,
    plugs: &mut Vec<Plug>,
    dedup: Box<dyn Logic + Send>,
    pairsum: Box<dyn Logic + Send>,
) -> Result<(), NoMemory>
    requires none { plugs.old.items ≡ [] }
    requires dedup { gives dedup ≡ listed shipped_book (codes "dedup") }
    requires pairsum { gives pairsum ≡ listed shipped_book (codes "pairsum") }
    ensures kept { OnOk result (All (λ p. Is (gives p.logic) [] (listed shipped_book p.head.name)) plugs.new.items) }
    ensures heads { OnOk result (map (λ p. p.head) plugs.new.items ≡ shipped_heads) }
{
    add(plugs, dedup_head(alloc)?, dedup)?;
    add(plugs, pairsum_head(alloc)?, pairsum)?;
    Ok(())
}

/// One more custom stage, which behaves as the program's stage of its name.
fn hire(
    customs: &mut Vec<Custom>,
    head: CustomHead,
    stage: Box<dyn Handlers + Send>,
) -> Result<(), NoMemory>
    requires kept { All (λ c. Behaves (Handlers-box c.stage).does c.stage.value (shipped_behaviour c.head.name)) customs.old.items }
    requires behaves { Behaves (Handlers-box stage).does stage.value (shipped_behaviour head.name) }
    ensures kept { OnOk result (All (λ c. Behaves (Handlers-box c.stage).does c.stage.value (shipped_behaviour c.head.name)) customs.new.items) }
    ensures heads { OnOk result (map (λ c. head_shape c.head) customs.new.items ≡ map (λ c. head_shape c.head) customs.old.items ++ head_shape head ∷ []) }
{
    customs.push(Custom { head, stage })?;
    Ok(())
}

/// Both custom stages of the program, with their heads.
fn hire_both(
    alloc: Global,
    customs: &mut Vec<Custom>,
    alternate: Box<dyn Handlers + Send>,
    rude: Box<dyn Handlers + Send>,
) -> Result<(), NoMemory>
    requires none { customs.old.items ≡ [] }
    requires alternate { Behaves (Handlers-box alternate).does alternate.value alternate_behaviour }
    requires rude { Behaves (Handlers-box rude).does rude.value rude_behaviour }
    ensures kept { OnOk result (All (λ c. Behaves (Handlers-box c.stage).does c.stage.value (shipped_behaviour c.head.name)) customs.new.items) }
    ensures heads { OnOk result (map (λ c. head_shape c.head) customs.new.items ≡ shipped_shapes) }
{
    hire(customs, alternate_head(alloc)?, alternate)?;
    hire(customs, rude_head(alloc)?, rude)?;
    Ok(())
}

/// Does what the words of a command ask for, as `run_streams` does, with the plugs `dedup` and `pairsum` and the custom stages `alternate`
/// and `rude`.
pub fn run_shipped<R: Threads + Wait + Sync, F: Folder, C: Drain>(
    rt: &R,
    alloc: Global,
    words: &[Line],
    folder: &mut F,
    console: &mut C,
) -> RunEnd
    // Words that are no command, and no others, have this answer, or memory was wanting.
    ensures usage { result.status ≢ Status.NoMemory → (result.status ≡ Status.Usage ↔ asked_of words.now ≡ None) }

    // What is answered and left, by what the words ask for.
    ensures answers { AnswersCommand shipped_plugs (asked_of words.now) (answer_of result) (F.state folder.old) (F.state folder.new) }

    // A valid blueprint and no fault give a run, or memory was wanting.
    ensures complete { (c : Asked) → asked_of words.now ≡ Some c → IsValidFor shipped_plugs c.generated c.file c.trace c.replay (F.state folder.old)
        (F.state folder.new)
        → RoseNowhere (F.state folder.old) (F.state folder.new) → WasRun result.status }

    // After a run, and only there, there is a receipt, of the command's workers and as many islands as the file's blueprint has.
    ensures ran { ReceiptsOf (asked_of words.now) (answer_of result) result.ran }
    ensures islands { IslandsOf shipped_plugs (asked_of words.now) result.ran (F.state folder.old) (F.state folder.new) }

    // Reading the blueprint's file stops after so many bytes.
    ensures reads { (c : Asked) → asked_of words.now ≡ Some c → GrewAtMost ((F.state folder.old).read c.file) text_limit ((F.state folder.new).read c.file) }

    // The folder never begins to tell its files.
    ensures tells { IsTrue (F.state folder.new).tells → IsTrue (F.state folder.old).tells }

    // Every file that it opened is closed, whatever is answered.
    ensures handles { F.handles folder.new ≡ F.handles folder.old }

    // The console has the report behind what it held, or a first part of it where a write to it failed.
    ensures console { (Puts (C.state console.old) (C.state console.new) (report_of (answer_of result)) × (result.code ≡ code_of result.status))
        ⊎ (PutsPart (C.state console.old) (C.state console.new) (report_of (answer_of result)) × (result.code ≡ 8)) }
{
    let Ok(dedup) = Box::new(alloc, Dedup::new()) else {
        return end_before_run(alloc, Status::NoMemory, console);
    };
    let Ok(pairsum) = Box::new(alloc, PairSum::new()) else {
        return end_before_run(alloc, Status::NoMemory, console);
    };
    let mut plugs: Vec<Plug> = Vec::new(alloc);
    if add_both(alloc, &mut plugs, dedup, pairsum).is_err() {
        return end_before_run(alloc, Status::NoMemory, console);
    }
    let Ok(alternate) = Box::new(alloc, Alternate::new()) else {
        return end_before_run(alloc, Status::NoMemory, console);
    };
    let Ok(rude) = Box::new(alloc, Rude {}) else {
        return end_before_run(alloc, Status::NoMemory, console);
    };
    let mut customs: Vec<Custom> = Vec::new(alloc);
    if hire_both(alloc, &mut customs, alternate, rude).is_err() {
        return end_before_run(alloc, Status::NoMemory, console);
    }
    run_streams::<R, F, C, Shipped>(rt, alloc, words, folder, console, plugs, customs)
}
