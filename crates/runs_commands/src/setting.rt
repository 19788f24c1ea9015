//! How the commands of a tree are carried out, as the lines before them say.

ghost use Rattle.std.specs.Prelude.{◌<◌, vec_len, IfOk};

use crate::meeting_reader::MeetingReader;
use outside::{MemReader, MemTree};
use pack_util::Text;
use std::alloc::{AllocError, Global};
use std::sync::atomic::AtomicU32;

/// How many readers there are, which of their reads wait for another, and where readers, sink and lines fail.
#[derive(Drop)]
pub(crate) struct Setting {
    readers: u32,
    meeting: Vec<Text>,
    pub(crate) failing: Failing,
}

/// The calls in which readers, sink and lines fail, and the paths that readers fail to read.
#[derive(Drop)]
pub(crate) struct Failing {
    calls: Vec<u64>,
    paths: Vec<Text>,
    pub(crate) puts: Vec<u64>,
    pub(crate) lines: Vec<u64>,
}

impl Failing {
    fn new(alloc: Global) -> Failing {
        Failing {
            calls: Vec::new(alloc),
            paths: Vec::new(alloc),
            puts: Vec::new(alloc),
            lines: Vec::new(alloc),
        }
    }

    /// Adds what a line says.
    fn add(&mut self, alloc: Global, what: &str, given: &str) -> Result<(), AllocError> {
        let number = given.parse::<u64>().unwrap_or(0);
        match what {
            "reader" => self.calls.push(number)?,
            "path" => self.paths.push(Text::new(alloc, given)?)?,
            "sink" => self.puts.push(number)?,
            _ => self.lines.push(number)?,
        }
        Ok(())
    }
}

impl Setting {
    pub(crate) fn new(alloc: Global) -> Setting {
        Setting {
            readers: 1,
            meeting: Vec::new(alloc),
            failing: Failing::new(alloc),
        }
    }

    /// Takes a line that says how, and tells whether it is one.
    pub(crate) fn take(
        &mut self,
        alloc: Global,
        name: &str,
        given: &str,
    ) -> Result<bool, AllocError> {
        match name {
            "N" => self.readers = given.parse::<u32>().unwrap_or(1),
            "M" => self.meeting.push(Text::new(alloc, given)?)?,
            "X" => match given.split_once(' ') {
                Some((what, given)) => self.failing.add(alloc, what, given)?,
                None => self.failing = Failing::new(alloc),
            },
            _ => return Ok(false),
        }
        Ok(true)
    }

    fn reader<'a>(
        &self,
        alloc: Global,
        tree: &'a MemTree,
        begun: &'a AtomicU32,
    ) -> Result<MeetingReader<'a>, AllocError> {
        let calls = self.failing.calls.to_vec(alloc)?;
        let paths = self.failing.paths.clone()?;
        let meeting = self.meeting.clone()?;
        let files = MemReader::failing(alloc, tree, calls, paths);
        Ok(MeetingReader::new(files, meeting, begun))
    }

    /// The readers of a command.
    pub(crate) fn readers<'a>(
        &self,
        alloc: Global,
        tree: &'a MemTree,
        begun: &'a AtomicU32,
    ) -> Result<Vec<MeetingReader<'a>>, AllocError>
        ensures { IfOk result (λ readers. 0 < vec_len readers) }
    {
        let mut readers = Vec::new(alloc);
        readers.push(self.reader(alloc, tree, begun)?)?;
        for _ in 1..self.readers {
            readers.push(self.reader(alloc, tree, begun)?)?;
        }
        Ok(readers)
    }
}
