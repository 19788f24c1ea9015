use crate::faults::counted;
use outside::{LineSink, OutsideEnd};
use std::alloc::Global;
use std::io;
use std::io::Write;

/// Writes each line to standard output.
#[derive(Drop)]
pub struct StdLines<P> {
    rt: P,
    faults: u64,
}

impl<P> StdLines<P> {
    pub fn new(rt: P) -> StdLines<P> {
        StdLines { rt, faults: 0 }
    }
}

impl<P: Print> StdLines<P> {
    fn write(&self, text: &[u8]) -> io::Result<()> {
        let mut output = io::writer(&self.rt);
        output.write_all(text)?;
        output.write_all(b"\n")
    }
}

impl<P: Print> LineSink for StdLines<P> {
    ghost use Rattle.std.specs.Prelude.{None};

    ghost view = { λ lines. record { held = None; faults = lines.faults } };

    fn line(&mut self, _alloc: Global, text: &[u8]) -> Result<(), OutsideEnd> {
        let written = self.write(text);
        match written {
            Ok(()) => Ok(()),
            Err(error) => Err(counted(&mut self.faults, error)),
        }
    }

    fn faults(&self) -> u64 {
        self.faults
    }
}
