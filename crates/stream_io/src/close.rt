// The closing of the files of a run.
ghost use Rattle.std.specs.Prelude.{◌≡◌, ◌+◌, ◌-◌, [], map, length};
ghost use Rattle.stream_io.specs.Closing.{ClosesAll};

use crate::outside::Folder;

/// Closes these inputs, in order.
pub(crate) fn close_inputs<F: Folder>(folder: &mut F, inputs: Vec<F::Inp>)
    ensures closes { ClosesAll (F.state folder.old) (F.state folder.new) (map F.Inp.state inputs.items) [] }
    ensures handles { F.handles folder.new ≡ F.handles folder.old - length inputs.items }
{
    for source in inputs {
        folder.close_in(source);
    }
}

/// Closes these outputs, in order.
pub(crate) fn close_outputs<F: Folder>(folder: &mut F, outputs: Vec<F::Out>)
    ensures closes { ClosesAll (F.state folder.old) (F.state folder.new) [] (map F.Out.state outputs.items) }
    ensures handles { F.handles folder.new ≡ F.handles folder.old - length outputs.items }
{
    for drain in outputs {
        folder.close_out(drain);
    }
}

// Choice: docs/DECISIONS.md#closing-asks-nothing
/// Closes the files of a run: each input's counts are added to those of its name, each output's file is what it held, and its count is added to that of its name. There are as many open handles less. Of handles with one name only what all of them share is known. It takes no memory.
pub fn close_all<F: Folder>(folder: &mut F, inputs: Vec<F::Inp>, outputs: Vec<F::Out>)
    ensures closes { ClosesAll (F.state folder.old) (F.state folder.new) (map F.Inp.state inputs.items) (map F.Out.state outputs.items) }
    ensures handles { F.handles folder.new ≡ F.handles folder.old - (length inputs.items + length outputs.items) }
{
    close_inputs(folder, inputs);
    close_outputs(folder, outputs);
}
