// One generated file, from its opening to its closing.
ghost use Rattle.std.specs.Prelude.{◌≡◌, OnOk, Err};
ghost use Rattle.run_report.specs.Texts.{text_of};
ghost use Rattle.run_report.specs.FileWriting.{Writes, FailsToWrite, RefusesFile, StopsWriting};

use crate::generator_put::{PutEnd, Text, put_text};
use elem_core::line::Line;
use std::alloc::Global;
use stream_io::outside::{Folder, OpenFault};

/// Why a file was not written whole.
#[derive(Drop)]
pub(crate) enum GenerateWriteEnd {
    /// The folder refused to open it.
    Missing,
    /// A write failed.
    Fault,
    NoMemory,
}

/// Writes the text to the file of that name, which is closed in any case.
pub(crate) fn write_file<F: Folder>(
    alloc: Global,
    folder: &mut F,
    name: &Line,
    text: Text,
) -> Result<(), GenerateWriteEnd>
    ensures ok { OnOk result (Writes (F.state folder.old) (F.state folder.new) name.now (text_of text)) }
    ensures missing { result ≡ Err GenerateWriteEnd.Missing → RefusesFile (F.state folder.old) (F.state folder.new) name.now }
    ensures fault { result ≡ Err GenerateWriteEnd.Fault → FailsToWrite (F.state folder.old) (F.state folder.new) name.now (text_of text) }
    ensures no_memory { result ≡ Err GenerateWriteEnd.NoMemory → StopsWriting (F.state folder.old) (F.state folder.new) name.now (text_of text) }
    ensures handles { F.handles folder.new ≡ F.handles folder.old }
{
    let mut drain = match folder.open_out(alloc, name) {
        Ok(drain) => drain,
        Err(OpenFault::Missing) => return Err(GenerateWriteEnd::Missing),
        Err(OpenFault::NoMemory) => return Err(GenerateWriteEnd::NoMemory),
    };
    let put = put_text(alloc, &mut drain, text);
    folder.close_out(drain);
    match put {
        Ok(()) => Ok(()),
        Err(PutEnd::Failed) => Err(GenerateWriteEnd::Fault),
        Err(PutEnd::NoMemory) => Err(GenerateWriteEnd::NoMemory),
    }
}
