// A whole call over a folder and a console that never fail. What other calls come to is told by the cases of the program `rows`.
use crate::lines::line_of;
use graph_stage::rude::Rude;
use plug_logic::book::Shipped;
use plug_logic::dedup::Dedup;
use std::test::Fail;
use stream_command::{Status, run_surely};
use stream_io::named_file::NamedFile;
use stream_io::sure::{SureDrain, SureFolder};
use stream_model::outcome::EndState;

const TEXT: &str =
    "streams 1\nsource src lines in.txt\nstage size map len\nsink out lines out.txt\nwire src.0 -> size.0\nwire size.0 -> out.0\n";

#[test]
fn sure_calls_run(rt: HostRuntime) -> Result<(), Fail> {
    let alloc = rt.alloc();
    let file = line_of(alloc, "log.blue")?;
    let mut files = Vec::new(alloc);
    for (name, text) in [("log.blue", TEXT), ("in.txt", "disk full\nok\n")] {
        files.push(NamedFile {
            name: line_of(alloc, name)?,
            bytes: Vec::from_slice(alloc, text.as_bytes())?,
        })?;
    }
    let mut folder = SureFolder::new(files, 3);
    let mut console = SureDrain::new(3);
    let end = run_surely::<HostRuntime, SureDrain, Dedup, Rude, Shipped>(
        &rt,
        alloc,
        &file,
        None,
        None,
        2,
        1000,
        &mut folder,
        &mut console,
        Vec::new(alloc),
        Vec::new(alloc),
    );
    assert_eq!(rt; end.code, 0);
    assert!(rt; matches!(&end.status, Status::Done));
    assert_eq!(rt; end.sinks.len(), 1);
    let sink = &end.sinks[0];
    assert_eq!(rt; sink.name.bytes(), b"out".as_slice());
    assert_eq!(rt; sink.count, 2);
    assert!(rt; matches!(sink.end, EndState::Ended));
    assert_eq!(rt; console.written(), 22);
    Ok(())
}
