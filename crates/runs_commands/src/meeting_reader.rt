//! The reader of these runs, over one in memory.

use outside::{DirEntry, MemReader, OutsideEnd, ReadGot, TreeReader, Why};
use pack_util::Text;
use std::alloc::Global;
use std::sync::atomic::AtomicU32;
use std::sync::atomic::Ordering::SeqCst;
use std::thread;

/// How often a read looks whether the other has begun.
const TURNS: u32 = 1_000_000;

/// A reader whose reads of some paths wait until two of them have begun, and fail where that doesn't come. It tells no tree.
#[derive(Drop)]
pub(crate) struct MeetingReader<'a> {
    files: MemReader<'a>,
    meeting: Vec<Text>,
    begun: &'a AtomicU32,
    faults: u64,
}

impl<'a> MeetingReader<'a> {
    /// A reader whose reads of these paths wait, which counts those that have begun in `begun`.
    pub(crate) fn new(
        files: MemReader<'a>,
        meeting: Vec<Text>,
        begun: &'a AtomicU32,
    ) -> MeetingReader<'a> {
        MeetingReader {
            files,
            meeting,
            begun,
            faults: 0,
        }
    }

    /// The paths that were read and what for, in order.
    pub(crate) fn log(&self) -> &[(Text, Why)] {
        self.files.log()
    }

    /// Waits where the path is one of those that wait, and tells whether the read may go on.
    fn meets(&self, path: &str) -> bool {
        if !self.meeting.iter().any(|other| other.get() == path) {
            return true;
        }
        let _ = self.begun.fetch_add(1, SeqCst);
        for _ in 0..TURNS {
            if self.begun.load(SeqCst) >= 2 {
                return true;
            }
            thread::yield_now();
        }
        false
    }
}

impl TreeReader for MeetingReader<'_> {
    ghost use Rattle.std.specs.Prelude.{◌≤◌, [], None, refl};
    ghost use Rattle.std.proofs.Common.{arith};

    ghost view = { λ reader. record { tree = None; log = []; listed = []; faults = reader.faults; strays = 0 } };

    ghost follows = { λ before now. before.faults ≤ now.faults };

    fn list_dir(&mut self, alloc: Global, path: &str) -> Result<Vec<DirEntry>, OutsideEnd> {
        match self.files.list_dir(alloc, path) {
            Err(OutsideEnd::Failed) => {
                self.faults = self.faults.saturating_add(1);
                Err(OutsideEnd::Failed)
            }
            listed => listed,
        }
    }

    fn read(
        &mut self,
        alloc: Global,
        path: &str,
        why: Why,
        most: u64,
    ) -> Result<ReadGot, OutsideEnd> {
        if !self.meets(path) {
            self.faults = self.faults.saturating_add(1);
            return Err(OutsideEnd::Failed);
        }
        match self.files.read(alloc, path, why, most) {
            Err(OutsideEnd::Failed) => {
                self.faults = self.faults.saturating_add(1);
                Err(OutsideEnd::Failed)
            }
            got => got,
        }
    }

    fn faults(&self) -> u64 {
        self.faults
    }

    ghost follows_itself = { λ reader. Prim.omega arith };

    ghost follows_on = { λ one two three before after. Prim.omega arith };

    ghost keeps = { λ before now follows. record { tree = refl; faults = follows; strays = Prim.omega arith } };

    ghost tells_a_tree = { λ reader tree told. Prim.cc };
}
