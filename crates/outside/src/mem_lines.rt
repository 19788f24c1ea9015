ghost use Rattle.std.specs.Prelude.{◌≡◌, [], false};
ghost use Rattle.outside.specs.Failures.{empty, sink_view, TakesTurn};
ghost use Rattle.outside.specs.Sinks.{Puts};

use crate::failure_plan::FailurePlan;
use crate::{LineSink, OutsideEnd};
use pack_util::Bytes;
use std::alloc::Global;
use std::marker::Model;

/// A sink that keeps the lines, which contracts see as them and the calls in which it fails.
#[derive(Drop)]
pub struct MemLines {
    lines: Vec<Bytes>,
    plan: FailurePlan,
}

impl Model for MemLines {
    ghost use Rattle.outside.specs.Failures.{Taken};
    ghost use Rattle.std.specs.Prelude.{ℕ, List};

    ghost Value = { Taken (List ℕ) };

    ghost view = { λ sink. record { members = sink.lines.items; plan = sink.plan } };
}

impl MemLines {
    /// A sink that never fails. Takes no memory.
    pub fn new(alloc: Global) -> MemLines
        ensures { result ≡ empty [] }
    {
        MemLines::failing(alloc, Vec::new(alloc))
    }

    /// A sink that fails in the calls with these numbers, which count from 0. Takes no memory.
    pub fn failing(alloc: Global, calls: Vec<u64>) -> MemLines
        ensures { result ≡ empty calls.items }
    {
        MemLines {
            lines: Vec::new(alloc),
            plan: FailurePlan::new(calls),
        }
    }

    /// The lines that it has taken, in order. Takes no memory.
    pub fn lines(&self) -> &[Bytes]
        ensures { result.now ≡ self.now.members }
    {
        self.lines.as_slice()
    }
}

impl LineSink for MemLines {
    ghost use Rattle.outside.specs.Failures.{sink_view};

    ghost view = { sink_view };

    fn line(&mut self, alloc: Global, text: &[u8]) -> Result<(), OutsideEnd>
        ensures puts { Puts text.now (sink_view self.old) (sink_view self.new) result }
        ensures turn { TakesTurn false self.old.plan self.new.plan result }
    {
        if self.plan.fails_now() {
            self.plan.fail();
            return Err(OutsideEnd::Failed);
        }
        self.lines.push(Bytes::new(alloc, text)?)?;
        self.plan.pass();
        Ok(())
    }

    fn faults(&self) -> u64 {
        self.plan.faults()
    }
}
