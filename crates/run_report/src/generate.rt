// The two generated files.
ghost use Rattle.std.specs.Prelude.{◌≡◌, ◌≤◌, ℕ, List, length, IsTrue, IfOk, OnOk, Err};
ghost use Rattle.elem_core.specs.Line.{has_no_lf};
ghost use Rattle.run_report.specs.Generated.{Generates, MissesInputFile, FailsAtFile, StopsGenerating};

use crate::generator_put::Text;
use crate::write::{GenerateWriteEnd, write_file};
use elem_core::line::Line;
use std::alloc::{AllocError, Global};
use stream_io::outside::Folder;

/// Why the files were not generated.
#[derive(Drop)]
pub enum GenerateEnd {
    /// The folder refused to open the file of this name.
    Missing(Line),
    /// A write failed.
    WriteFault,
    NoMemory,
}

impl From<AllocError> for GenerateEnd {
    ghost use Rattle.std.specs.Prelude.{◌≡◌};
    ghost use Rattle.run_report.specs.declared.generate.GenerateEnd.TheVariants.{NoMemory};

    ghost from_gives = { λ _ e. e ≡ NoMemory };

    fn from(_error: AllocError) -> GenerateEnd {
        GenerateEnd::NoMemory
    }
}

/// The line of a file's name.
fn line_of(alloc: Global, name: &[u8]) -> Result<Line, AllocError>
    requires short { length name.now ≤ 65536 }
    requires no_lf { IsTrue (has_no_lf name.now) }
    ensures { IfOk result (λ line. line ≡ name.now) }
{
    let bytes = name.to_vec(alloc)?;
    Ok(Line::of(bytes))
}

// Choice: docs/DECISIONS.md#text-is-closed-first
/// Writes `gen.txt` with n lines, 1 to 10,000,000, and then `gen.blue` with a blueprint that reads them. Where it ends before, each
/// of the two files is as before or holds a first part of its text. It leaves as many open handles as there were.
pub fn generate<F: Folder>(alloc: Global, folder: &mut F, n: u32) -> Result<(), GenerateEnd>
    ensures ok { OnOk result (Generates (F.state folder.old) (F.state folder.new) n) }
    ensures missing { (name : List ℕ) → result ≡ Err (GenerateEnd.Missing name) → MissesInputFile (F.state folder.old) (F.state folder.new) n name }
    ensures fault { result ≡ Err GenerateEnd.WriteFault → FailsAtFile (F.state folder.old) (F.state folder.new) n }
    ensures no_memory { result ≡ Err GenerateEnd.NoMemory → StopsGenerating (F.state folder.old) (F.state folder.new) n }
    ensures handles { F.handles folder.new ≡ F.handles folder.old }
{
    let lines = line_of(alloc, b"gen.txt")?;
    let blueprint = line_of(alloc, b"gen.blue")?;
    match write_file(alloc, folder, &lines, Text::Lines(n)) {
        Ok(()) => {}
        Err(GenerateWriteEnd::Missing) => return Err(GenerateEnd::Missing(lines)),
        Err(GenerateWriteEnd::Fault) => return Err(GenerateEnd::WriteFault),
        Err(GenerateWriteEnd::NoMemory) => return Err(GenerateEnd::NoMemory),
    }
    match write_file(alloc, folder, &blueprint, Text::Blueprint) {
        Ok(()) => Ok(()),
        Err(GenerateWriteEnd::Missing) => Err(GenerateEnd::Missing(blueprint)),
        Err(GenerateWriteEnd::Fault) => Err(GenerateEnd::WriteFault),
        Err(GenerateWriteEnd::NoMemory) => Err(GenerateEnd::NoMemory),
    }
}
