use crate::faults::counted;
use crate::system::{holds, make_place_below, replace};
use outside::{AssetSink, OutsideEnd};
use pack_util::Text;
use path_text::parent;
use std::alloc::Global;
use std::rt::Files;
use std::{fs, io};

/// Writes each asset as a file below a folder of the system, which is made where it isn't there.
///
/// A file is replaced whole, and one that holds the asset's bytes already stays. What a failed call had begun is removed.
#[derive(Drop)]
pub struct DirSink<F> {
    rt: F,
    folder: Text,
    faults: u64,
}

impl<F> DirSink<F> {
    pub fn new(rt: F, folder: Text) -> DirSink<F> {
        DirSink {
            rt,
            folder,
            faults: 0,
        }
    }
}

impl<F: Files + AllocGlobal> DirSink<F> {
    /// Writes the file of an asset. The folders that are made for it join `made`.
    fn write(
        &self,
        alloc: Global,
        name: &str,
        bytes: &[u8],
        made: &mut Vec<String>,
    ) -> io::Result<()> {
        let place = make_place_below(&self.rt, alloc, self.folder.get(), name, made)?;
        if holds(&self.rt, alloc, place.as_str(), bytes) {
            return Ok(());
        }
        let folder = parent(place.as_str());
        replace(&self.rt, alloc, folder, place.as_str(), bytes)
    }

    /// Removes folders that were made, the inner ones first.
    fn remove(&self, made: &[String]) {
        for folder in made.iter().rev() {
            // One that another program has put something into stays.
            let _ = fs::remove_dir(&self.rt, folder.as_str());
        }
    }
}

impl<F: Files + AllocGlobal> AssetSink for DirSink<F> {
    ghost use Rattle.std.specs.Prelude.{None};

    ghost view = { λ sink. record { held = None; faults = sink.faults } };

    fn put(&mut self, alloc: Global, name: &str, bytes: &[u8]) -> Result<(), OutsideEnd> {
        let mut made = Vec::new(alloc);
        let written = self.write(alloc, name, bytes, &mut made);
        match written {
            Ok(()) => Ok(()),
            Err(error) => {
                self.remove(&made);
                Err(counted(&mut self.faults, error))
            }
        }
    }

    fn faults(&self) -> u64 {
        self.faults
    }
}
