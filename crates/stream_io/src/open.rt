// The opening of the files of a run.
ghost use Rattle.std.specs.Prelude.{◌≡◌, ◌+◌, ◌≤◌, ℕ, List, [], map, length, vec_len, vec_capacity, IfOk, OnOk, OnErr};
ghost use Rattle.stream_io.specs.Opening.{OpensAll, MissesInput, RefusesOutput, GivesUp};
ghost use Rattle.stream_io.specs.Stopping.{StopsAtInput, StopsAtOutput, LacksRoom};

use crate::close::close_all;
use crate::outside::{Folder, OpenFault};
use elem_core::line::Line;
use std::alloc::Global;

/// Why the files of a run were not opened.
#[derive(Drop)]
pub enum OpenEnd {
    /// The folder has no file of this name, or refused to open it to read it.
    MissingInput(Line),
    /// The folder refused to open the file of this name to write it.
    MissingOutput(Line),
    NoMemory,
}

/// Why the files of one of the two lists were not opened.
#[derive(Drop)]
enum ListEnd {
    Missing(Line),
    NoMemory,
}

/// The open files of a run: inputs, of which nothing was read, and outputs, which are empty, each in the order of its names.
#[derive(Drop)]
pub struct Opened<I, O> {
    pub inputs: Vec<I>,
    pub outputs: Vec<O>,
}

/// Opens the inputs in order, into a list that has room for them.
fn open_inputs<F: Folder>(
    alloc: Global,
    folder: &mut F,
    names: Vec<Line>,
    sources: &mut Vec<F::Inp>,
) -> Result<(), ListEnd>
    requires empty { sources.old.items ≡ [] }
    requires room { vec_len names ≤ vec_capacity sources.old }
    ensures opened { OnOk result (OpensAll (F.state folder.old) (F.state folder.new) names.items [] (map F.Inp.state sources.new.items) []) }
    ensures missing { (n : List ℕ) → result ≡ Err (ListEnd.Missing n) → StopsAtInput (F.state folder.old) (F.state folder.new) names.items n
        (map F.Inp.state sources.new.items) [] }
    ensures no_memory { result ≡ Err ListEnd.NoMemory → LacksRoom (F.state folder.old) (F.state folder.new) [] (map F.Inp.state sources.new.items) [] }
    ensures handles { F.handles folder.new ≡ F.handles folder.old + length sources.new.items }
{
    for name in names {
        match folder.open_in(alloc, &name) {
            Ok(source) => sources.push_reserved(source),
            Err(OpenFault::Missing) => return Err(ListEnd::Missing(name)),
            Err(OpenFault::NoMemory) => return Err(ListEnd::NoMemory),
        }
    }
    Ok(())
}

/// Opens the outputs in order, into a list that has room for them.
fn open_outputs<F: Folder>(
    alloc: Global,
    folder: &mut F,
    names: Vec<Line>,
    drains: &mut Vec<F::Out>,
) -> Result<(), ListEnd>
    requires empty { drains.old.items ≡ [] }
    requires room { vec_len names ≤ vec_capacity drains.old }
    ensures opened { OnOk result (OpensAll (F.state folder.old) (F.state folder.new) [] names.items [] (map F.Out.state drains.new.items)) }
    ensures missing { (n : List ℕ) → result ≡ Err (ListEnd.Missing n) → StopsAtOutput (F.state folder.old) (F.state folder.new) [] names.items n []
        (map F.Out.state drains.new.items) }
    ensures no_memory { result ≡ Err ListEnd.NoMemory → LacksRoom (F.state folder.old) (F.state folder.new) names.items [] (map F.Out.state drains.new.items) }
    ensures handles { F.handles folder.new ≡ F.handles folder.old + length drains.new.items }
{
    for name in names {
        match folder.open_out(alloc, &name) {
            Ok(drain) => drains.push_reserved(drain),
            Err(OpenFault::Missing) => return Err(ListEnd::Missing(name)),
            Err(OpenFault::NoMemory) => return Err(ListEnd::NoMemory),
        }
    }
    Ok(())
}

/// Opens the inputs in order, and then the outputs in order, into lists that have room for them.
fn fill<F: Folder>(
    alloc: Global,
    folder: &mut F,
    inputs: Vec<Line>,
    outputs: Vec<Line>,
    opened: &mut Opened<F::Inp, F::Out>,
) -> Result<(), OpenEnd>
    requires no_input { opened.old.inputs.items ≡ [] }
    requires no_output { opened.old.outputs.items ≡ [] }
    requires inputs_room { vec_len inputs ≤ vec_capacity opened.old.inputs }
    requires outputs_room { vec_len outputs ≤ vec_capacity opened.old.outputs }
    ensures opened { OnOk result (OpensAll (F.state folder.old) (F.state folder.new) inputs.items outputs.items (map F.Inp.state opened.new.inputs.items)
        (map F.Out.state opened.new.outputs.items)) }
    ensures no_input { (n : List ℕ) → result ≡ Err (OpenEnd.MissingInput n) → StopsAtInput (F.state folder.old) (F.state folder.new) inputs.items n
        (map F.Inp.state opened.new.inputs.items) (map F.Out.state opened.new.outputs.items) }
    ensures no_output { (n : List ℕ) → result ≡ Err (OpenEnd.MissingOutput n) → StopsAtOutput (F.state folder.old)
        (F.state folder.new) inputs.items outputs.items n (map F.Inp.state opened.new.inputs.items) (map F.Out.state opened.new.outputs.items) }
    ensures no_memory { result ≡ Err OpenEnd.NoMemory → LacksRoom (F.state folder.old) (F.state folder.new) outputs.items
        (map F.Inp.state opened.new.inputs.items) (map F.Out.state opened.new.outputs.items) }
    ensures handles { F.handles folder.new ≡ F.handles folder.old + (length opened.new.inputs.items + length opened.new.outputs.items) }
{
    match open_inputs(alloc, folder, inputs, &mut opened.inputs) {
        Ok(()) => {}
        Err(ListEnd::Missing(name)) => return Err(OpenEnd::MissingInput(name)),
        Err(ListEnd::NoMemory) => return Err(OpenEnd::NoMemory),
    }
    match open_outputs(alloc, folder, outputs, &mut opened.outputs) {
        Ok(()) => Ok(()),
        Err(ListEnd::Missing(name)) => Err(OpenEnd::MissingOutput(name)),
        Err(ListEnd::NoMemory) => Err(OpenEnd::NoMemory),
    }
}

// Choice: docs/DECISIONS.md#stopped-openings-close
/// Opens the files of a run: the inputs in order, and then the outputs in order, which are empty then. It takes the room of both lists before the first opening. At the first name that is missing or refused, or where memory is wanting, it closes what it opened, so that no count but that of the refused name rises; outputs that it had opened stay empty. It leaves as many open handles as it answers: none where it does not answer `Ok`. A name may stand twice.
///
/// `MissingInput` and `MissingOutput` give the name back, moved out of its list.
pub fn open_all<F: Folder>(
    alloc: Global,
    folder: &mut F,
    inputs: Vec<Line>,
    outputs: Vec<Line>,
) -> Result<Opened<F::Inp, F::Out>, OpenEnd>
    ensures opened { IfOk result (λ o. OpensAll (F.state folder.old) (F.state folder.new) inputs.items outputs.items (map F.Inp.state o.inputs.items)
        (map F.Out.state o.outputs.items)) }
    ensures no_input { (n : List ℕ) → result ≡ Err (OpenEnd.MissingInput n) → MissesInput (F.state folder.old) (F.state folder.new) inputs.items n }
    ensures no_output { (n : List ℕ) → result ≡ Err (OpenEnd.MissingOutput n) → RefusesOutput (F.state folder.old)
        (F.state folder.new) inputs.items outputs.items n }
    ensures no_memory { result ≡ Err OpenEnd.NoMemory → GivesUp (F.state folder.old) (F.state folder.new) outputs.items }
    ensures handles { IfOk result (λ o. F.handles folder.new ≡ F.handles folder.old + (length o.inputs.items + length o.outputs.items)) }
    ensures none_left { OnErr result (F.handles folder.new ≡ F.handles folder.old) }
{
    let Ok(sources) = Vec::with_capacity(alloc, inputs.len()) else {
        return Err(OpenEnd::NoMemory);
    };
    let Ok(drains) = Vec::with_capacity(alloc, outputs.len()) else {
        return Err(OpenEnd::NoMemory);
    };
    let mut opened = Opened {
        inputs: sources,
        outputs: drains,
    };
    match fill(alloc, folder, inputs, outputs, &mut opened) {
        Ok(()) => Ok(opened),
        Err(end) => {
            let Opened { inputs, outputs } = opened;
            close_all(folder, inputs, outputs);
            Err(end)
        }
    }
}
