// A whole call over a folder in memory, with plugs of the caller's own.
ghost use Rattle.std.specs.Prelude.{◌≡◌, ◌≤◌, ◌++◌, ◌∷◌, [], IsTrue, OnOk, length};
ghost use Rattle.std.specs.List.{All};
ghost use Rattle.elem_core.specs.Line.{has_no_lf};
ghost use Rattle.graph_stage.specs.Told.{HandedAs};
ghost use Rattle.plug_logic.specs.Gives.{listed};
ghost use Rattle.plug_samples.specs.Samples.{sample_book};
ghost use Rattle.stage_linear.specs.Plugs.{Is};

use crate::lines::line_of;
use elem_core::elem_type::{ElemType, TypeForm};
use elem_core::line::Line;
use graph_stage::custom::Custom;
use graph_stage::handlers::Handlers;
use plug_logic::book::PlugBook;
use plug_logic::logic::Logic;
use plug_logic::plug::Plug;
use plug_samples::book::Samples;
use std::alloc::{AllocError, Global};
use std::sync::Wait;
use std::thread::Threads;
use stream_command::run::run_streams;
use stream_io::mem_drain::MemDrain;
use stream_io::mem_folder::MemFolder;
use stream_io::named_file::{NamedFile, bytes_of};
use stream_model::head::{CustomHead, PlugHead};

/// One more plug of texts, or of numbers, whose logic gives what the book of samples lists of this name.
pub fn add(
    alloc: Global,
    plugs: &mut Vec<Plug>,
    name: &str,
    numbers: bool,
    logic: Box<dyn Logic + Send>,
) -> Result<(), AllocError>
    requires short { length name.now ≤ 65536 }
    requires no_lf { IsTrue (has_no_lf name.now) }
    requires kept { All (λ p. Is (gives p.logic) [] (listed sample_book p.head.name)) plugs.old.items }
    requires listed { gives logic ≡ listed sample_book name.now }
    ensures { OnOk result (All (λ p. Is (gives p.logic) [] (listed sample_book p.head.name)) plugs.new.items) }
{
    let mut bytes = Vec::new(alloc);
    bytes.extend_from_slice(name.as_bytes())?;
    let form = if numbers {
        TypeForm::Num
    } else {
        TypeForm::Text
    };
    let other = if numbers {
        TypeForm::Num
    } else {
        TypeForm::Text
    };
    let head = PlugHead {
        name: Line::of(bytes),
        input: ElemType::of(form),
        output: ElemType::of(other),
    };
    plugs.push(Plug { head, logic })?;
    Ok(())
}

/// One more custom stage, with so many inputs and outputs, all of texts or all of numbers.
pub fn hire(
    alloc: Global,
    customs: &mut Vec<Custom>,
    name: &str,
    ports: (usize, usize),
    numbers: bool,
    stage: Box<dyn Handlers + Send>,
) -> Result<(), AllocError>
    requires short { length name.now ≤ 65536 }
    requires no_lf { IsTrue (has_no_lf name.now) }
{
    let mut bytes = Vec::new(alloc);
    bytes.extend_from_slice(name.as_bytes())?;
    let head = CustomHead {
        name: Line::of(bytes),
        inputs: types(alloc, ports.0, numbers)?,
        outputs: types(alloc, ports.1, numbers)?,
    };
    customs.push(Custom { head, stage })?;
    Ok(())
}

/// So many types of numbers, or of texts.
fn types(alloc: Global, many: usize, numbers: bool) -> Result<Vec<ElemType>, AllocError> {
    let mut types = Vec::new(alloc);
    for _i in 0..many {
        let form = if numbers {
            TypeForm::Num
        } else {
            TypeForm::Text
        };
        types.push(ElemType::of(form))?;
    }
    Ok(types)
}

/// What a call came to: what its console has, and its files.
#[derive(Drop)]
pub struct Came {
    pub said: Vec<u8>,
    pub files: Vec<NamedFile>,
}

impl Came {
    /// Whether the console has this text.
    pub fn says(&self, text: &str) -> bool {
        self.said.as_slice() == text.as_bytes()
    }

    /// Whether the file of this name holds this text.
    pub fn holds(&self, alloc: Global, name: &str, text: &str) -> Result<bool, AllocError> {
        let name = line_of(alloc, name)?;
        Ok(match bytes_of(&self.files, &name) {
            Some(bytes) => bytes == text.as_bytes(),
            None => false,
        })
    }
}

/// Runs the blueprint of this text, by so many workers, over a folder whose `in.txt` holds this input, without a custom stage.
pub fn call<R: Threads + Wait + Sync>(
    rt: &R,
    alloc: Global,
    text: &str,
    input: &str,
    workers: &str,
    plugs: Vec<Plug>,
) -> Result<Came, AllocError>
    requires { All (λ p. Is (gives p.logic) [] (listed sample_book p.head.name)) plugs.items }
{
    call_with(rt, alloc, text, input, workers, plugs, Vec::new(alloc))
}

/// Runs the blueprint of this text, by so many workers, over a folder whose `in.txt` holds this input. Of no custom stage the book of
/// samples has a list.
pub fn call_with<R: Threads + Wait + Sync>(
    rt: &R,
    alloc: Global,
    text: &str,
    input: &str,
    workers: &str,
    plugs: Vec<Plug>,
    customs: Vec<Custom>,
) -> Result<Came, AllocError>
    requires { All (λ p. Is (gives p.logic) [] (listed sample_book p.head.name)) plugs.items }
{
    call_by::<R, Samples>(rt, alloc, text, input, workers, plugs, customs)
}

/// The same by any book of lists.
pub fn call_by<R: Threads + Wait + Sync, B: PlugBook + Send>(
    rt: &R,
    alloc: Global,
    text: &str,
    input: &str,
    workers: &str,
    plugs: Vec<Plug>,
    customs: Vec<Custom>,
) -> Result<Came, AllocError>
    requires listed { All (λ p. Is (gives p.logic) [] (listed B.lists p.head.name)) plugs.items }
    requires customs { All (λ c. HandedAs (B.lists.tells c.head.name) B.lists c.head.name c.head.inputs.items c.head.outputs.items
        (tells c.stage)) customs.items }
{
    let mut files = Vec::new(alloc);
    for (name, held) in [("log.blue", text), ("in.txt", input)] {
        files.push(NamedFile {
            name: line_of(alloc, name)?,
            bytes: Vec::from_slice(alloc, held.as_bytes())?,
        })?;
    }
    let mut words = Vec::new(alloc);
    words.push(line_of(alloc, "log.blue")?)?;
    words.push(line_of(alloc, "--workers")?)?;
    words.push(line_of(alloc, workers)?)?;
    let mut folder = MemFolder::new(files, Vec::new(alloc), 4096, 1000);
    let mut console = MemDrain::new(alloc, Vec::new(alloc), 4096, 1000)?;
    let _ = run_streams::<R, MemFolder, MemDrain, B>(
        rt,
        alloc,
        &words,
        &mut folder,
        &mut console,
        plugs,
        customs,
    );
    let mut left = Vec::new(alloc);
    for file in folder.files() {
        left.push(NamedFile {
            name: file.name.copy(alloc)?,
            bytes: Vec::from_slice(alloc, &file.bytes)?,
        })?;
    }
    Ok(Came {
        said: Vec::from_slice(alloc, console.bytes())?,
        files: left,
    })
}
