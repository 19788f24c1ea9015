use fault_place::Limit;

/// How a command ended.
#[derive(Clone, Copy, PartialEq, Eq)]
pub enum End {
    Built,
    /// There are so many faults.
    Faults(u32),
    Usage,
    Config,
    Limit(Limit),
    ReadFault,
    WriteFault,
    LineFault,
    NoMemory,
}

impl End {
    ghost use Rattle.std.specs.Prelude.{◌≡◌};
    ghost use Rattle.pack_run.specs.End.{status_of};

    /// The exit status of the program.
    pub fn status(&self) -> u8
        ensures { result ≡ status_of self.now }
    {
        match self {
            End::Built => 0,
            End::Faults(_) => 1,
            End::Usage => 2,
            End::Config => 2,
            End::ReadFault => 3,
            End::WriteFault => 4,
            End::LineFault => 4,
            End::NoMemory => 5,
            End::Limit(_) => 6,
        }
    }
}
