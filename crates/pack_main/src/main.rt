//! The program: `run` over the folder in which it is started, with the assets in `dist`.
#![tactic(auto)]

ghost use Rattle.std.specs.Prelude.{◌<◌, IfOk, vec_len};

mod words;

use outside::LineSink;
use outside_real::{DirReader, DirSink, StdLines};
use pack_run::{End, READERS, run};
use pack_util::{NoMemory, Text};
use std::process::ExitCode;
use std::rt::Files;
use words::words;

fn reader<R: Files + AllocGlobal>(rt: &R) -> Result<DirReader<&R>, NoMemory> {
    Ok(DirReader::new(rt, Text::new(rt.alloc(), ".")?))
}

/// A reader for each worker that a command may have.
fn readers<R: Files + AllocGlobal>(rt: &R) -> Result<Vec<DirReader<&R>>, NoMemory>
    ensures { IfOk result (λ readers. 0 < vec_len readers) }
{
    let mut readers = Vec::new(rt.alloc());
    readers.push(reader(rt)?)?;
    for _ in 1..READERS {
        readers.push(reader(rt)?)?;
    }
    Ok(readers)
}

fn sink<R: Files + AllocGlobal>(rt: &R) -> Result<DirSink<&R>, NoMemory> {
    Ok(DirSink::new(rt, Text::new(rt.alloc(), "dist")?))
}

fn main(rt: HostRuntime) -> ExitCode {
    let mut lines = StdLines::new(&rt);
    let (Ok(words), Ok(mut readers), Ok(mut sink)) = (words(&rt), readers(&rt), sink(&rt)) else {
        // As `run` ends where memory is wanting.
        let _ = lines.line(rt.alloc(), b"no memory");
        return ExitCode::from(End::NoMemory.status());
    };
    let end = run(&rt, rt.alloc(), &words, &mut readers, &mut sink, &mut lines);
    ExitCode::from(end.status())
}
