//! A project of three files: file 0 is the entry and names files 1 and 2, which name none.

use graph_types::{Item, ItemKind, ModKind, ModRecord};
use make_core::{CorePlan, CoreState, Event, RunEnd, run_events};
use pack_util::{Bytes, FileId, Seq, Span, Text};
use std::alloc::{AllocError, Global};
use std::process::Abort;

/// What a worker does with a file, in the order worker, file.
#[derive(Clone, Copy, PartialEq, Eq)]
pub enum Step {
    Claim(u32, u32),
    Publish(u32, u32),
    /// A publication of another record than the plan's.
    Change(u32, u32),
}

/// The work of one worker in the order of the files.
pub const ONE_WORKER: [Step; 6] = [
    Step::Claim(0, 0),
    Step::Publish(0, 0),
    Step::Claim(0, 1),
    Step::Publish(0, 1),
    Step::Claim(0, 2),
    Step::Publish(0, 2),
];

fn publication(alloc: Global, worker: u32, file: u32, size: u64) -> Result<Event, AllocError> {
    let rec = record(alloc, file, size)?;
    Ok(Event::Publish {
        worker,
        file: FileId(file),
        rec,
    })
}

impl Step {
    fn event(self, alloc: Global) -> Result<Event, AllocError> {
        match self {
            Step::Claim(worker, file) => Ok(Event::Claim {
                worker,
                file: FileId(file),
            }),
            Step::Publish(worker, file) => publication(alloc, worker, file, 0),
            Step::Change(worker, file) => publication(alloc, worker, file, 1),
        }
    }
}

fn record(alloc: Global, file: u32, size: u64) -> Result<ModRecord, AllocError> {
    let path = Text::new(alloc, "a.js")?;
    let items = items(alloc, file)?;
    Ok(ModRecord {
        file: FileId(file),
        path,
        size,
        kind: ModKind::Es,
        text: Bytes::from_vec(Vec::new(alloc)),
        items,
        binds: Seq::new(alloc),
        exports: Seq::new(alloc),
        stars: Seq::new(alloc),
        edits: Seq::new(alloc),
        notes: Seq::new(alloc),
        faults: Seq::new(alloc),
    })
}

fn items(alloc: Global, file: u32) -> Result<Seq<Item>, AllocError> {
    let mut items = Seq::new(alloc);
    let past = if file == 0 { 3 } else { 1 };
    for target in 1..past {
        items.push(item(alloc, target)?)?;
    }
    Ok(items)
}

fn item(alloc: Global, target: u32) -> Result<Item, AllocError> {
    Ok(Item {
        kind: ItemKind::Import,
        span: Span { start: 0, end: 9 },
        at: 7,
        request: Text::new(alloc, "./b.js")?,
        chunk_name: None,
        target: Some(FileId(target)),
    })
}

fn records(alloc: Global) -> Result<Seq<ModRecord>, AllocError> {
    let mut recs = Seq::new(alloc);
    for file in 0..3 {
        recs.push(record(alloc, file, 0)?)?;
    }
    Ok(recs)
}

pub fn plan(alloc: Global) -> Result<CorePlan, AllocError> {
    let mut entries = Seq::new(alloc);
    entries.push(FileId(0))?;
    let recs = records(alloc)?;
    Ok(CorePlan { entries, recs })
}

fn events(alloc: Global, steps: &[Step]) -> Result<Vec<Event>, AllocError> {
    let mut events = Vec::new(alloc);
    for step in steps {
        events.push(step.event(alloc)?)?;
    }
    Ok(events)
}

/// The steps as events, run by two workers from the start.
pub fn run(
    rt: &impl Abort,
    alloc: Global,
    plan: &CorePlan,
    steps: &[Step],
) -> Result<CoreState, RunEnd> {
    let events = events(alloc, steps)?;
    assert!(rt; events.len() < 100);
    run_events(alloc, plan, 3, 2, events)
}

fn is_same_record(one: Option<&ModRecord>, other: Option<&ModRecord>) -> bool {
    match (one, other) {
        (Some(one), Some(other)) => one == other,
        _ => false,
    }
}

/// Whether both states have the same records, a record for each of the three files.
pub fn have_same_records(one: &CoreState, other: &CoreState) -> bool {
    (0..3).all(|file| is_same_record(one.done(FileId(file)), other.done(FileId(file))))
}
