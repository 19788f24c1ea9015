ghost use Rattle.std.specs.Prelude.{◌≡◌, ◌≤◌, [], IfOk};
ghost use Rattle.outside.specs.Cause.{risen};
ghost use Rattle.outside.specs.Failures.{plan_after};
ghost use Rattle.outside.specs.Readings.{fails_in};
ghost use Rattle.outside.specs.Reads.{read_of};
ghost use Rattle.outside.specs.Tree.{IsTree};
ghost use Rattle.outside.specs.declared.outside_end.OutsideEnd.TheVariants.{Failed};

use crate::failure_plan::FailurePlan;
use crate::{DirEntry, MemTree, OutsideEnd, ReadGot, TreeReader, Why};
use pack_util::{Bytes, NoMemory, Text};
use std::alloc::Global;

/// A reader of a tree in memory.
#[derive(Drop)]
pub struct MemReader<'a> {
    tree: &'a MemTree,
    plan: FailurePlan,
    paths: Vec<Text>,
    log: Vec<(Text, Why)>,
    listed: Vec<Text>,
    strays: u64,
    ghost is_tree: { IsTree tree.now },
}

impl<'a> MemReader<'a> {
    ghost use Rattle.outside.specs.MemReaders.{reading};
    ghost use Rattle.outside.specs.Readings.{Follows, first_reading};

    /// A reader that fails only where a path is not in the tree. Takes no memory.
    pub fn new(alloc: Global, tree: &'a MemTree) -> MemReader<'a>
        ensures { reading result ≡ first_reading tree.now [] [] }
    {
        MemReader::failing(alloc, tree, Vec::new(alloc), Vec::new(alloc))
    }

    /// A reader that fails besides in the calls with these numbers, which count from 0 over all calls but `faults`,
    /// and in each read of these paths. Takes no memory.
    pub fn failing(
        alloc: Global,
        tree: &'a MemTree,
        calls: Vec<u64>,
        paths: Vec<Text>,
    ) -> MemReader<'a>
        ensures { reading result ≡ first_reading tree.now calls.items paths.items }
    {
        tree.know_tree();
        MemReader {
            tree,
            plan: FailurePlan::new(calls),
            paths,
            log: Vec::new(alloc),
            listed: Vec::new(alloc),
            strays: 0,
        }
    }

    /// The paths that were read and what for, in order. Takes no memory.
    pub fn log(&self) -> &[(Text, Why)]
        ensures { result.now ≡ (reading self.now).log }
    {
        self.log.as_slice()
    }

    /// The folders that were listed, in order. Takes no memory.
    pub fn listed(&self) -> &[Text]
        ensures { result.now ≡ (reading self.now).listed }
    {
        self.listed.as_slice()
    }

    /// Counts a call with a path that is not in the tree.
    fn stray(&mut self) -> OutsideEnd
        ensures result { result ≡ Failed }
        ensures follows { Follows (reading self.old) (reading self.new) }
        ensures after { reading self.new ≡ record (reading self.old) {
          plan = plan_after {T = Unit {0}} (Err Failed) self.old.plan;
          strays = risen self.old.strays;
        } }
    {
        self.strays = self.strays.saturating_add(1);
        self.plan.fail();
        OutsideEnd::Failed
    }
}

impl TreeReader for MemReader<'_> {
    ghost use Rattle.std.specs.Prelude.{is_some, false, not};
    ghost use Rattle.outside.specs.MemReaders.{reading};
    ghost use Rattle.outside.specs.Readings.{Follows, TakesReaderTurn, fails_in, follower_keeps, follows_itself, follows_on, reader_view, told_tree};
    ghost use Rattle.outside.specs.Reads.{ListsFolder, ReadsPath};
    ghost use Rattle.outside.specs.Tree.{bytes_at, is_folder};

    ghost view = { λ reader. reader_view (reading reader) };

    ghost follows = { λ before now. Follows (reading before) (reading now) };

    fn list_dir(&mut self, alloc: Global, path: &str) -> Result<Vec<DirEntry>, OutsideEnd>
        ensures follows { Follows (reading self.old) (reading self.new) }
        ensures lists { ListsFolder path.now (reader_view (reading self.old)) (reader_view (reading self.new)) result }
        ensures turn { TakesReaderTurn (not (is_folder self.old.tree.now path.now)) false (reading self.old) (reading self.new) result }
    {
        if !self.tree.is_folder(path) {
            return Err(self.stray());
        }
        if self.plan.fails_now() {
            self.plan.fail();
            return Err(OutsideEnd::Failed);
        }
        let entries = self.tree.entries(alloc, path)?;
        self.listed.push(Text::new(alloc, path)?)?;
        self.plan.pass();
        Ok(entries)
    }

    fn read(
        &mut self,
        alloc: Global,
        path: &str,
        why: Why,
        most: u64,
    ) -> Result<ReadGot, OutsideEnd>
        ensures follows { Follows (reading self.old) (reading self.new) }
        ensures reads { ReadsPath path.now why most (reader_view (reading self.old)) (reader_view (reading self.new)) result }
        ensures turn { TakesReaderTurn (not (is_some (bytes_at self.old.tree.now path.now))) (fails_in self.old.paths.items path.now) (reading self.old) (reading self.new) result }
    {
        let Some(bytes) = self.tree.find(path) else {
            return Err(self.stray());
        };
        if self.plan.fails_now() || is_among(&self.paths, path) {
            self.plan.fail();
            return Err(OutsideEnd::Failed);
        }
        let got = read_of(alloc, bytes, most)?;
        self.log.push((Text::new(alloc, path)?, why))?;
        self.plan.pass();
        Ok(got)
    }

    fn faults(&self) -> u64 {
        self.plan.faults()
    }

    ghost follows_itself = { λ reader. follows_itself (reading reader) };

    ghost follows_on = { λ one two three. follows_on (reading one) (reading two) (reading three) };

    ghost keeps = { λ before now. follower_keeps (reading before) (reading now) };

    ghost tells_a_tree = { λ reader tree told. told_tree reader.tree.now tree told reader.is_tree };
}

fn read_of(alloc: Global, bytes: &Bytes, most: u64) -> Result<ReadGot, NoMemory>
    ensures { IfOk result (λ got. got ≡ read_of most bytes.now) }
{
    let bytes = bytes.get();
    if bytes.len() as u64 <= most {
        Ok(ReadGot::Whole(Bytes::new(alloc, bytes)?))
    } else {
        Ok(ReadGot::TooLong)
    }
}

fn is_among(paths: &[Text], path: &str) -> bool
    ensures { result ≡ fails_in paths.now path.now }
{
    paths.iter().any(|other| other.get() == path)
}
