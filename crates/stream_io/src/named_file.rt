// Files in memory, by name.
ghost use Rattle.std.specs.Prelude.{◌≡◌, ◌≢◌, ℕ, List, Some, option_map, is_some, OnOk, OnErr};
ghost use Rattle.stream_io.specs.Files.{bytes_of_file, with_file};

use elem_core::line::Line;
use elem_core::why::NoMemory;

/// A file in memory.
#[derive(Drop)]
pub struct NamedFile {
    pub name: Line,
    pub bytes: Vec<u8>,
}

/// The bytes of the first file of that name.
pub fn bytes_of<'a>(files: &'a [NamedFile], name: &Line) -> Option<&'a [u8]>
    ensures { option_map (λ b. b.now) result ≡ bytes_of_file files.now name.now }
{
    for file in files {
        if file.name == *name {
            return Some(&file.bytes);
        }
    }
    None
}

/// Gives the first file of that name these bytes, and says whether there is one.
pub fn replace(files: &mut Vec<NamedFile>, name: &Line, bytes: Vec<u8>) -> bool
    ensures files { files.new.items ≡ with_file files.old.items name.now bytes }
    ensures found { result ≡ is_some (bytes_of_file files.old.items name.now) }
{
    for i in 0..files.len() {
        let file = &mut files[i];
        if file.name == *name {
            file.bytes = bytes;
            return true;
        }
    }
    false
}

/// Puts a file in the place of the first of its name, or behind all others.
pub fn put_file(files: &mut Vec<NamedFile>, file: NamedFile) -> Result<(), NoMemory>
    ensures this { OnOk result (bytes_of_file files.new.items file.name ≡ Some file.bytes.items) }
    ensures others { OnOk result ((n : List ℕ) → n ≢ file.name → bytes_of_file files.new.items n ≡ bytes_of_file files.old.items n) }
    ensures err { OnErr result (files.new.items ≡ files.old.items) }
{
    if bytes_of(files, &file.name).is_some() {
        let NamedFile { name, bytes } = file;
        replace(files, &name, bytes);
        return Ok(());
    }
    files.push(file)?;
    Ok(())
}
