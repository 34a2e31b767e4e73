// Whether the files that a blueprint's sources name can be opened.
ghost use Rattle.std.specs.Prelude.{◌≡◌, ◌⊎◌, ◌≤◌, ℕ, List, IsTrue, true, false, IfOk, Ok, Some};
ghost use Rattle.std.specs.Option.{option_map};
ghost use Rattle.blue_check.specs.Checked.{checked_blueprint};
ghost use Rattle.stream_io.specs.State.{SameFiles, SameRefusals};
ghost use Rattle.workbench_draw.specs.Judging.{IsFitText};
ghost use Rattle.workbench_top.specs.Files.{ChecksFiles, LacksNamed, MissesOne, OpensFiles, has_named, read_by};

use crate::answer::{Answer, Ending};
use crate::texts::blaming;
use blue_check::checked::Checked;
use elem_core::line::Line;
use elem_core::why::NoMemory;
use std::alloc::{AllocError, Global};
use stream_io::outside::{Folder, OpenFault};
use stream_model::blueprint::Node;
use stream_model::kind::Kind;
use workbench_draw::judge::judge_text;
use workbench_draw::ways::warnings_of;

/// The file that a node of this kind reads.
fn read_by(kind: &Kind) -> Option<&Line>
    ensures { option_map (λ l. l.now) result ≡ read_by kind.now }
{
    match kind {
        Kind::Lines(file) => Some(file),
        _ => None,
    }
}

/// Whether the file of that name can be opened to read it. It is closed again.
#[tactic(auto, using(crate::proofs::Looking::closed_rises, crate::proofs::Looking::closed_same, crate::proofs::Looking::refuses_rises, crate::proofs::Looking::named_missing))]
fn can_open<F: Folder>(alloc: Global, folder: &mut F, name: &Line) -> Result<bool, NoMemory>
    ensures there { result ≡ Ok true → IsTrue (F.state folder.old).tells → has_named (F.state folder.old) (Some name.now) ≡ true }
    ensures refusals { result ≡ Ok true → SameRefusals (F.state folder.old) (F.state folder.new) }
    ensures missing { result ≡ Ok false → LacksNamed (Some name.now) (F.state folder.old) (F.state folder.new) }
    ensures rises { (n : List ℕ) → (F.state folder.old).refusals n ≤ (F.state folder.new).refusals n }
    ensures files { SameFiles (F.state folder.old) (F.state folder.new) }
    ensures handles { F.handles folder.new ≡ F.handles folder.old }
{
    match folder.open_in(alloc, name) {
        Ok(source) => {
            folder.close_in(source);
            Ok(true)
        }
        Err(OpenFault::Missing) => Ok(false),
        Err(OpenFault::NoMemory) => Err(AllocError),
    }
}

/// Appends a line that tells of a source whose file is missing.
fn put_missing(out: &mut Vec<u8>, source: &Line, file: &Line) -> Result<(), NoMemory> {
    out.extend_from_slice(b"source ")?;
    out.extend_from_slice(source.bytes())?;
    out.extend_from_slice(b" reads ")?;
    out.extend_from_slice(file.bytes())?;
    out.extend_from_slice(b", which is not there or cannot be opened\n")
}

/// Whether the file that a node reads can be opened; if not, a line is appended that tells so.
fn look_for<F: Folder>(
    alloc: Global,
    out: &mut Vec<u8>,
    folder: &mut F,
    node: &Node,
) -> Result<bool, NoMemory>
    ensures there { result ≡ Ok true → IsTrue (F.state folder.old).tells → has_named (F.state folder.old) (read_by node.now.kind) ≡ true }
    ensures refusals { result ≡ Ok true → SameRefusals (F.state folder.old) (F.state folder.new) }
    ensures told { result ≡ Ok true → out.new.items ≡ out.old.items }
    ensures missing { result ≡ Ok false → LacksNamed (read_by node.now.kind) (F.state folder.old) (F.state folder.new) }
    ensures rises { (n : List ℕ) → (F.state folder.old).refusals n ≤ (F.state folder.new).refusals n }
    ensures files { SameFiles (F.state folder.old) (F.state folder.new) }
{
    let Some(file) = read_by(&node.kind) else {
        return Ok(true);
    };
    if can_open(alloc, folder, file)? {
        return Ok(true);
    }
    put_missing(out, &node.name, file)?;
    Ok(false)
}

/// Whether each file that these nodes read can be opened; for each that cannot a line is appended.
fn look_for_all<F: Folder>(
    alloc: Global,
    out: &mut Vec<u8>,
    folder: &mut F,
    nodes: &[Node],
) -> Result<bool, NoMemory>
    ensures opens { result ≡ Ok true → OpensFiles nodes.now (F.state folder.old) (F.state folder.new) }
    ensures told { result ≡ Ok true → out.new.items ≡ out.old.items }
    ensures misses { result ≡ Ok false → MissesOne nodes.now (F.state folder.old) (F.state folder.new) }
    ensures files { SameFiles (F.state folder.old) (F.state folder.new) }
{
    let mut all = true;
    for node in nodes {
        if !look_for(alloc, out, folder, node)? {
            all = false;
        }
    }
    Ok(all)
}

/// The answer on a checked blueprint: its warnings, and the files that are missing.
fn looked<F: Folder>(
    alloc: Global,
    text: &[u8],
    file: &Line,
    folder: &mut F,
    c: &Checked,
) -> Result<Answer, NoMemory>
    requires { IsFitText text.now file.now (checked_blueprint c.now) }
    ensures answers { IfOk result (ChecksFiles text.now file.now (F.state folder.old) (F.state folder.new)) }
    ensures files { SameFiles (F.state folder.old) (F.state folder.new) }
{
    let mut told = warnings_of(alloc, text, c)?;
    if look_for_all(alloc, &mut told, folder, &c.blueprint().nodes)? {
        Ok(Answer::telling(alloc, Ending::Done, told))
    } else {
        Ok(Answer::telling(alloc, Ending::Missing, told))
    }
}

/// The answer to `check` with the option that looks for files: as without it, and of a blueprint that is fit a line for each source whose
/// file cannot be opened. No file is changed.
pub(crate) fn check_files<F: Folder>(
    alloc: Global,
    text: &[u8],
    file: &Line,
    folder: &mut F,
) -> Answer
    ensures answers { ChecksFiles text.now file.now (F.state folder.old) (F.state folder.new) result ⊎ (result.ending ≡ Ending.NoMemory) }
    ensures files { SameFiles (F.state folder.old) (F.state folder.new) }
{
    match judge_text(alloc, text, file) {
        Ok(c) => match looked(alloc, text, file, folder, &c) {
            Ok(answer) => answer,
            Err(_) => Answer::without_memory(alloc),
        },
        Err(why) => blaming(alloc, text, file, &why),
    }
}
