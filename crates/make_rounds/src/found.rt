//! The files that a build has found, which are counted before they are read.
ghost use Rattle.std.specs.Prelude.{◌≡◌, ℕ, ◌<◌, Bool, replicate, length, false, IfOk, IfErr, IsOk, IsTrue};
ghost use Rattle.std.specs.List.{AllByRecursion};
ghost use Rattle.graph_types.specs.Reached.{HoldsAll};
ghost use Rattle.tree_listing.specs.Listing.{AreAscending};
ghost use Rattle.make_rounds.specs.inner.Answered.{numbers_of};
ghost use Rattle.make_rounds.specs.inner.Counting.{IsAllowed, IsExceeded};
ghost use Rattle.make_rounds.specs.inner.Found.{IsCounted, marked};

use crate::counts::Counts;
use bit_rows::BitRow;
use fault_place::Limit;
use pack_util::{FileId, NoMemory};
use std::alloc::Global;
use tree_listing::Listing;

/// Which files were found, and what is counted of them: the modules and the bytes of text.
#[derive(Drop)]
pub(crate) struct Found {
    pub(crate) marks: BitRow,
    pub(crate) counts: Counts,
}

impl Found {
    /// None yet, of the files of a listing.
    pub(crate) fn new(alloc: Global, listing: &Listing) -> Result<Found, NoMemory>
        ensures counted { IfOk result (IsCounted listing.now.files) }
        ensures ascending { AreAscending listing.now.files }
        ensures allowed { IfOk result (λ found. IsAllowed found.counts) }
        ensures none { IfOk result (λ found. (set : ℕ → Bool) → HoldsAll set (marked found.marks)) }
    {
        let count = listing.count();
        Ok(Found {
            marks: BitRow::new(alloc, count)?,
            counts: Counts::none(),
        })
    }

    /// Counts each of the files that wasn't found before, until a limit is exceeded.
    pub(crate) fn add(&mut self, listing: &Listing, files: &[FileId]) -> Result<(), Limit>
        requires counted { IsCounted listing.now.files self.old }
        requires allowed { IsAllowed self.old.counts }
        requires within { AllByRecursion (λ file. file.0 < length listing.now.files) files.now }
        ensures counted { IsCounted listing.now.files self.new }
        ensures allowed { IsOk result → IsAllowed self.new.counts }
        ensures exceeded { IfErr result (IsExceeded self.new.counts) }
        ensures among { (set : ℕ → Bool) → HoldsAll set (marked self.old.marks) → HoldsAll set (numbers_of files.now) → HoldsAll set (marked self.new.marks) }
    {
        for file in files {
            if self.marks.get(file.0) {
                continue;
            }
            self.marks.set(file.0, true);
            self.counts = self.counts.with_file(listing.length(*file));
            if let Some(limit) = self.counts.exceeded() {
                return Err(limit);
            }
        }
        Ok(())
    }
}
