use crate::ticket::Ticket;

/// What a claim gives.
#[derive(Drop)]
pub enum Claim {
    /// The seat owns the file, and may publish its record.
    New(Ticket),
    /// The file had this owner already, which may be the seat itself.
    Known(u32),
}

/// What a look tells of a file.
#[derive(Clone, Copy, PartialEq, Eq)]
pub enum Look {
    /// Nobody owns it.
    Free,
    /// This seat owns it, and hasn't published its record.
    Claimed(u32),
    /// This seat owns it, and has published its record.
    Published(u32),
}
