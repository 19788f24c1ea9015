use crate::OutsideEnd;
use std::alloc::Global;

/// Takes the lines that a command prints, without their ends.
pub trait LineSink {
    ghost use Rattle.std.specs.Prelude.{◌≡◌, ℕ, List};
    ghost use Rattle.outside.specs.Sinks.{Puts};
    ghost use Rattle.outside.specs.Views.{SinkView};

    /// What contracts see of it.
    ghost view: { Self → SinkView (List ℕ) };

    fn line(&mut self, alloc: Global, text: &[u8]) -> Result<(), OutsideEnd>
        ensures { Puts text.now (view self.old) (view self.new) result };

    /// The count of faults. Takes no memory.
    fn faults(&self) -> u64
        ensures { result ≡ (view self.now).faults };
}
