//! Records that name nothing.
ghost use Rattle.std.specs.Prelude.{◌≡◌, ◌≤◌, [], ◌∷◌, length, IfOk};
ghost use Rattle.module_parse.specs.Bare.{fault_at, faulty_record, long_record};
ghost use Rattle.module_parse.specs.inner.Known.{known_record};

use fault_place::{Fault, FaultKind, place_at};
use graph_types::{ModKind, ModRecord};
use pack_util::{Bytes, FileId, NoMemory, Seq, Text};
use std::alloc::Global;

/// A record of which nothing but the file, its text and its faults are known.
pub fn bare_record(
    alloc: Global,
    file: FileId,
    path: &str,
    size: u64,
    kind: ModKind,
    text: Bytes,
    faults: Seq<Fault>,
) -> Result<ModRecord, NoMemory>
    ensures { IfOk result (λ rec. rec ≡ known_record file path.now size kind text faults) }
{
    let path = Text::new(alloc, path)?;
    Ok(ModRecord {
        file,
        path,
        size,
        kind,
        text,
        items: Seq::new(alloc),
        binds: Seq::new(alloc),
        exports: Seq::new(alloc),
        stars: Seq::new(alloc),
        edits: Seq::new(alloc),
        notes: Seq::new(alloc),
        faults,
    })
}

/// A fault that names nothing.
fn fault_at(
    alloc: Global,
    path: &str,
    text: &[u8],
    offset: u64,
    kind: FaultKind,
) -> Result<Fault, NoMemory>
    requires { offset ≤ length text.now }
    ensures { IfOk result (λ fault. fault ≡ fault_at path.now text.now offset kind) }
{
    Ok(Fault {
        place: place_at(alloc, path, text, offset)?,
        kind,
        detail: Text::new(alloc, "")?,
    })
}

fn one_fault(
    alloc: Global,
    path: &str,
    text: &[u8],
    offset: u64,
    kind: FaultKind,
) -> Result<Seq<Fault>, NoMemory>
    requires { offset ≤ length text.now }
    ensures { IfOk result (λ faults. faults ≡ fault_at path.now text.now offset kind ∷ []) }
{
    let fault = fault_at(alloc, path, text, offset, kind)?;
    let mut faults = Seq::new(alloc);
    faults.push(fault)?;
    Ok(faults)
}

/// The record of a text with one fault.
pub fn faulty_record(
    alloc: Global,
    file: FileId,
    path: &str,
    text: Bytes,
    kind: ModKind,
    offset: u64,
    fault: FaultKind,
) -> Result<ModRecord, NoMemory>
    requires { offset ≤ length text }
    ensures { IfOk result (λ rec. rec ≡ faulty_record file path.now text kind (fault_at path.now text offset fault)) }
{
    let faults = one_fault(alloc, path, text.get(), offset, fault)?;
    let size = text.get().len() as u64;
    bare_record(alloc, file, path, size, kind, text, faults)
}

/// The record of a file that is too long to be read, by its length.
pub fn long_record(
    alloc: Global,
    file: FileId,
    path: &str,
    size: u64,
) -> Result<ModRecord, NoMemory>
    ensures { IfOk result (λ rec. rec ≡ long_record file path.now size) }
{
    let faults = one_fault(alloc, path, b"", 0, FaultKind::TooLong)?;
    let text = Bytes::new(alloc, b"")?;
    bare_record(alloc, file, path, size, ModKind::Bad, text, faults)
}
