//! What holds of readers, call after call.
ghost use Rattle.pack_run.specs.inner.First.{AreReaders};

use outside::TreeReader;

/// Does nothing, and tells a proof what each reader keeps.
pub(crate) fn readers_keep<R: TreeReader>(_: &[R])
    ensures { AreReaders R.follows R.view }
{}
