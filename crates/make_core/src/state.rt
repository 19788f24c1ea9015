ghost use Rattle.std.specs.Prelude.{◌≡◌, ◌↔◌, ◌⊎◌, Some, IsTrue, IfOk, option_copied};
ghost use Rattle.make_core.specs.Core.{AnswersEvent, IsDone, IsOpenTarget, IsQuiet, IsSound, MayClaim, MayPublish, done_of, owner_of, start};

use crate::lookup::{is_unset, nothing, value_at};
use crate::quiet::{are_entries_owned, are_finished, are_targets_owned};
use crate::targets::names;
use crate::{CorePlan, Event, NotAllowed};
use graph_types::ModRecord;
use pack_util::{FileId, NoMemory};
use std::alloc::Global;
use std::marker::Model;

/// Who owns each file, and the record of each file that is done.
#[derive(Drop)]
pub struct CoreState {
    workers: u32,
    owners: Vec<Option<u32>>,
    done: Vec<Option<ModRecord>>,
}

impl Model for CoreState {
    ghost use Rattle.make_core.specs.Core.{Core};

    ghost Value = { Core };

    ghost view = { λ state. record {
      workers = state.workers;
      owner = state.owners.items;
      done = state.done.items;
    } };
}

impl CoreState {
    /// Nobody owns a file, and none is done.
    pub fn new(alloc: Global, files: u32, workers: u32) -> Result<CoreState, NoMemory>
        ensures { IfOk result (λ state. state ≡ start files workers) }
    {
        Ok(CoreState {
            workers,
            owners: nothing(alloc, files)?,
            done: nothing(alloc, files)?,
        })
    }

    /// Takes no memory.
    pub fn owner(&self, file: FileId) -> Option<u32>
        ensures { result ≡ owner_of self.now file.0 }
    {
        value_at(&self.owners, file.0 as usize).copied()
    }

    /// Takes no memory.
    pub fn done(&self, file: FileId) -> Option<&ModRecord>
        ensures { option_copied result ≡ done_of self.now file.0 }
    {
        value_at(&self.done, file.0 as usize)
    }

    /// Does what the event says where the plan allows it, and else nothing. Takes no memory.
    pub fn step(&mut self, plan: &CorePlan, event: Event) -> Result<(), NotAllowed>
        ensures answer { AnswersEvent plan.now event self.old self.new result }
        ensures sound { IsSound plan.now self.old → IsSound plan.now self.new }
    {
        match event {
            Event::Claim { worker, file } => self.claim(plan, worker, file),
            Event::Publish { worker, file, rec } => self.publish(plan, worker, file, rec),
        }
    }

    /// Whether every entry file is owned, every owned file is done, and every target of a done record is owned.
    /// Takes no memory.
    pub fn quiet(&self, plan: &CorePlan) -> bool
        ensures { IsTrue result ↔ IsQuiet plan.now self.now }
    {
        if !are_entries_owned(&self.owners, plan) {
            return false;
        }
        are_finished(&self.owners, &self.done) && are_targets_owned(&self.owners, &self.done)
    }

    fn claim(&mut self, plan: &CorePlan, worker: u32, file: FileId) -> Result<(), NotAllowed>
        ensures { AnswersEvent plan.now (Event.Claim worker file) self.old self.new result }
    {
        if !self.may_claim(plan, worker, file) {
            return Err(NotAllowed);
        }
        self.owners[file.0 as usize] = Some(worker);
        Ok(())
    }

    fn publish(
        &mut self,
        plan: &CorePlan,
        worker: u32,
        file: FileId,
        rec: ModRecord,
    ) -> Result<(), NotAllowed>
        ensures { AnswersEvent plan.now (Event.Publish worker file rec) self.old self.new result }
    {
        if !self.may_publish(plan, worker, file, &rec) {
            return Err(NotAllowed);
        }
        self.done[file.0 as usize] = Some(rec);
        Ok(())
    }

    fn may_claim(&self, plan: &CorePlan, worker: u32, file: FileId) -> bool
        ensures { IsTrue result ↔ MayClaim plan.now self.now worker file.0 }
    {
        worker < self.workers
            && is_unset(&self.owners, file)
            && (plan.is_entry(file) || self.is_open_target(plan, worker, file))
    }

    /// Looks through the plan's records, since the plan may be another than that of the events before.
    fn is_open_target(&self, plan: &CorePlan, worker: u32, file: FileId) -> bool
        ensures { IsTrue result ↔ IsOpenTarget plan.now self.now worker file.0 }
    {
        for (place, rec) in plan.recs.as_slice().iter().enumerate() {
            if self.opens(place, worker) && names(rec, file) {
                return true;
            }
        }
        false
    }

    /// Whether the targets of the file at a place are open to the worker.
    fn opens(&self, place: usize, worker: u32) -> bool
        ensures { IsTrue result ↔ (IsDone self.now place ⊎ (owner_of self.now place ≡ Some worker)) }
    {
        value_at(&self.done, place).is_some()
            || value_at(&self.owners, place).copied() == Some(worker)
    }

    fn may_publish(&self, plan: &CorePlan, worker: u32, file: FileId, rec: &ModRecord) -> bool
        ensures { IsTrue result ↔ MayPublish plan.now self.now worker file.0 rec.now }
    {
        self.owner(file) == Some(worker) && is_unset(&self.done, file) && plan.has_record(file, rec)
    }
}
