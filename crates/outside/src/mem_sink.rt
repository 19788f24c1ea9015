ghost use Rattle.std.specs.Prelude.{◌≡◌, [], false};
ghost use Rattle.outside.specs.Failures.{empty, sink_view, TakesTurn};
ghost use Rattle.outside.specs.Sinks.{Puts, asset};

use crate::failure_plan::FailurePlan;
use crate::{Asset, AssetSink, OutsideEnd};
use pack_util::{Bytes, Text};
use std::alloc::Global;
use std::marker::Model;

/// A sink that keeps the assets, which contracts see as them and the calls in which it fails.
#[derive(Drop)]
pub struct MemSink {
    held: Vec<Asset>,
    plan: FailurePlan,
}

impl Model for MemSink {
    ghost use Rattle.outside.specs.Failures.{Taken};
    ghost use Rattle.outside.specs.declared.asset_sink.Asset.{Asset};

    ghost Value = { Taken Asset };

    ghost view = { λ sink. record { members = sink.held.items; plan = sink.plan } };
}

impl MemSink {
    /// A sink that never fails. Takes no memory.
    pub fn new(alloc: Global) -> MemSink
        ensures { result ≡ empty [] }
    {
        MemSink::failing(alloc, Vec::new(alloc))
    }

    /// A sink that fails in the calls with these numbers, which count from 0. Takes no memory.
    pub fn failing(alloc: Global, calls: Vec<u64>) -> MemSink
        ensures { result ≡ empty calls.items }
    {
        MemSink {
            held: Vec::new(alloc),
            plan: FailurePlan::new(calls),
        }
    }

    /// The assets that it has taken, in order. Takes no memory.
    pub fn held(&self) -> &[Asset]
        ensures { result.now ≡ self.now.members }
    {
        self.held.as_slice()
    }
}

impl AssetSink for MemSink {
    ghost use Rattle.outside.specs.Failures.{sink_view};

    ghost view = { sink_view };

    fn put(&mut self, alloc: Global, name: &str, bytes: &[u8]) -> Result<(), OutsideEnd>
        ensures puts { Puts (asset name.now bytes.now) (sink_view self.old) (sink_view self.new) result }
        ensures turn { TakesTurn false self.old.plan self.new.plan result }
    {
        if self.plan.fails_now() {
            self.plan.fail();
            return Err(OutsideEnd::Failed);
        }
        let name = Text::new(alloc, name)?;
        let bytes = Bytes::new(alloc, bytes)?;
        self.held.push(Asset { name, bytes })?;
        self.plan.pass();
        Ok(())
    }

    fn faults(&self) -> u64 {
        self.plan.faults()
    }
}
