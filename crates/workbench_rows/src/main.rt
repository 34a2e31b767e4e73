//! The program `workbench_rows`: it tries the cases of the files that its words name, and says how many passed.
#![tactic(auto)]

mod attempt;

use attempt::{Came, attempt};
use case_files::case::{Case, read_cases};
use case_files::text::Fault;
use std::alloc::AllocError;
use std::process::ExitCode;
use std::rt::{Env, Files};
use std::sync::Wait;
use std::thread::Threads;
use std::{env, fs, io};

/// How many cases went as they should, how many did not, and what is told of those.
#[derive(Drop)]
struct Count {
    passed: u64,
    failed: u64,
    told: Vec<u8>,
}

impl Count {
    /// Tells of what did not go as it should.
    fn fail(&mut self, file: &str, name: &[u8]) -> Result<(), AllocError> {
        self.failed = self.failed.saturating_add(1);
        self.told.extend_from_slice(b"fails: ")?;
        self.told.extend_from_slice(file.as_bytes())?;
        self.told.extend_from_slice(b": ")?;
        self.told.extend_from_slice(name)?;
        self.told.push(b'\n')?;
        Ok(())
    }

    /// Tells what a case came to.
    fn show(&mut self, came: &Came) -> Result<(), AllocError> {
        self.told.extend_from_slice(b"came: says\n")?;
        self.told.extend_from_slice(&came.said)?;
        self.told.extend_from_slice(b"came: tells\n")?;
        self.told.extend_from_slice(&came.told)?;
        Ok(())
    }

    /// Tries a case of this file. One that is to fail passes where it fails.
    fn add<R: AllocGlobal + Threads + Wait + Sync>(
        &mut self,
        rt: &R,
        file: &str,
        case: &Case,
    ) -> Result<(), AllocError> {
        let came = attempt(rt, rt.alloc(), case)?;
        let is_wanted = match case.wanted.as_slice() {
            [wanted] => came.is(wanted),
            _ => false,
        };
        if case.verdict_by(is_wanted) == case.verdict {
            self.passed = self.passed.saturating_add(1);
            return Ok(());
        }
        self.fail(file, &case.name)?;
        self.show(&came)
    }

    /// Tries the cases of a file. One that can't be read, or has no case, fails.
    fn add_file<R: Files + AllocGlobal + Threads + Wait + Sync>(
        &mut self,
        rt: &R,
        file: &str,
    ) -> Result<(), Fault> {
        let alloc = rt.alloc();
        let Ok(text) = fs::read(rt, file) else {
            return Ok(self.fail(file, b"the file cannot be read")?);
        };
        let cases = read_cases(alloc, &text, false)?;
        if cases.is_empty() {
            self.fail(file, b"the file has no case")?;
        }
        for case in &cases {
            self.add(rt, file, case)?;
        }
        Ok(())
    }
}

/// Tries the cases of all files that the words name.
fn count_all<R: Env + Files + AllocGlobal + Threads + Wait + Sync>(rt: &R) -> io::Result<Count> {
    let mut count = Count {
        passed: 0,
        failed: 0,
        told: Vec::new(rt.alloc()),
    };
    let mut is_name = true;
    for word in env::args(rt)? {
        if !is_name && count.add_file(rt, word.as_str()).is_err() {
            return Err(AllocError.into());
        }
        is_name = false;
    }
    Ok(count)
}

fn main(rt: HostRuntime) -> io::Result<ExitCode> {
    let count = count_all(&rt)?;
    rt.write_all(&count.told)?;
    let Count { passed, failed, .. } = count;
    println!(rt; "{passed} passed, {failed} failed")?;
    Ok(ExitCode::from(if failed == 0 { 0 } else { 1 }))
}
