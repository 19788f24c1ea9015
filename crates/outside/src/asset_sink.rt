use crate::OutsideEnd;
use pack_util::{Bytes, Text};
use std::alloc::Global;

/// A file that a build makes.
#[derive(Clone, PartialEq, Eq, Drop)]
pub struct Asset {
    pub name: Text,
    pub bytes: Bytes,
}

/// Takes the assets of a build.
pub trait AssetSink {
    ghost use Rattle.std.specs.Prelude.{◌≡◌};
    ghost use Rattle.outside.specs.Sinks.{Puts, asset};
    ghost use Rattle.outside.specs.Views.{SinkView};
    ghost use Rattle.outside.specs.declared.asset_sink.Asset.{Asset};

    /// What contracts see of it.
    ghost view: { Self → SinkView Asset };

    fn put(&mut self, alloc: Global, name: &str, bytes: &[u8]) -> Result<(), OutsideEnd>
        ensures { Puts (asset name.now bytes.now) (view self.old) (view self.new) result };

    /// The count of faults. Takes no memory.
    fn faults(&self) -> u64
        ensures { result ≡ (view self.now).faults };
}
