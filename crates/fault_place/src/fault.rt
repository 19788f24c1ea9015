ghost use Rattle.std.specs.Prelude.{◌≡◌, ◌++◌, codes, OnOk, IfOk, string_bytes};
ghost use Rattle.std.specs.Fmt.{decimal};
ghost use Rattle.fault_place.specs.Fault.{message_of, other_asset, line_of};
ghost use Rattle.fault_place.specs.inner.Wording.{IsWording, worded};

use crate::{NoMemory, Place, Text};
use std::alloc::Global;

/// What is wrong at a place. Each kind's number stands in its line behind a B.
#[derive(Clone, Copy, PartialEq, Eq)]
pub enum FaultKind {
    /// B1
    NotUtf8,
    /// B2
    Unfinished,
    /// B3
    Stray,
    /// B4
    Unmatched,
    /// B5
    Depth,
    /// B6
    Open,
    /// B7
    Form,
    /// B8
    DynamicRequest,
    /// B9: the detail is the request.
    Unresolved,
    /// B10: the detail is the request.
    NotExported,
    /// B11: the detail is the manifest's path.
    BadManifest,
    /// B12: the detail is the manifest's path.
    BadTarget,
    /// B13: the detail is the chunk's name.
    EntryOnDemand,
    /// B14
    BadJson,
    /// B15
    BadType,
    /// B16: the detail is the name.
    RepeatedName,
    /// B17: the detail is the asset's name, which the first chunk's asset and the other, or the stats, have.
    AssetClash { first: u32, other: Option<u32> },
    /// B18: the detail is the cache group's name.
    GroupName,
    /// B19
    TooLong,
    /// B20
    NotYet,
}

/// A fault of a module, of the configuration or of the assets. The detail is empty where the kind names none.
#[derive(Clone, PartialEq, Eq, Drop)]
pub struct Fault {
    pub place: Place,
    pub kind: FaultKind,
    pub detail: Text,
}

impl FaultKind {
    ghost use Rattle.std.specs.Prelude.{◌≡◌};
    ghost use Rattle.fault_place.specs.Fault.{number_of};

    pub fn number(self) -> u8
        ensures { result ≡ number_of self }
    {
        match self {
            FaultKind::NotUtf8 => 1,
            FaultKind::Unfinished => 2,
            FaultKind::Stray => 3,
            FaultKind::Unmatched => 4,
            FaultKind::Depth => 5,
            FaultKind::Open => 6,
            FaultKind::Form => 7,
            FaultKind::DynamicRequest => 8,
            FaultKind::Unresolved => 9,
            FaultKind::NotExported => 10,
            FaultKind::BadManifest => 11,
            FaultKind::BadTarget => 12,
            FaultKind::EntryOnDemand => 13,
            FaultKind::BadJson => 14,
            FaultKind::BadType => 15,
            FaultKind::RepeatedName => 16,
            FaultKind::AssetClash { .. } => 17,
            FaultKind::GroupName => 18,
            FaultKind::TooLong => 19,
            FaultKind::NotYet => 20,
        }
    }
}

fn push(line: &mut String, part: &str) -> Result<(), NoMemory>
    ensures { OnOk result (string_bytes line.new ≡ string_bytes line.old ++ part.now) }
{
    line.push_str(part)
}

fn push_number(line: &mut String, number: u64) -> Result<(), NoMemory>
    ensures { OnOk result (string_bytes line.new ≡ string_bytes line.old ++ decimal number) }
{
    write!(line, "{number}")
}

/// What a message says around the detail, which stands between double quotes, or says alone.
enum Words {
    Alone(&'static str),
    Naming(&'static str, &'static str),
}

/// How a kind is worded, but for the chunks of a clash.
fn wording(kind: FaultKind) -> Words
    ensures { IsWording kind result }
{
    match kind {
        FaultKind::NotUtf8 => Words::Alone("text is not UTF-8"),
        FaultKind::Unfinished => Words::Alone("unfinished token"),
        FaultKind::Stray => Words::Alone("stray character"),
        FaultKind::Unmatched => Words::Alone("unmatched bracket"),
        FaultKind::Depth => Words::Alone("brackets too deep"),
        FaultKind::Open => Words::Alone("text ends in a bracket"),
        FaultKind::Form => Words::Alone("form is not supported"),
        FaultKind::DynamicRequest => Words::Alone("import() needs one text"),
        FaultKind::Unresolved => Words::Naming("cannot resolve ", ""),
        FaultKind::NotExported => Words::Naming("", " is not exported"),
        FaultKind::BadManifest => Words::Naming("bad manifest ", ""),
        FaultKind::BadTarget => Words::Naming("bad exports in ", ""),
        FaultKind::EntryOnDemand => Words::Naming("chunk name ", " is an entry"),
        FaultKind::BadJson => Words::Alone("bad JSON"),
        FaultKind::BadType => Words::Alone("module type is not supported"),
        FaultKind::RepeatedName => Words::Naming("name ", " is repeated"),
        FaultKind::AssetClash { .. } => Words::Naming("asset ", " of chunk "),
        FaultKind::GroupName => Words::Naming("cache group name ", " is taken"),
        FaultKind::TooLong => Words::Alone("module is too long"),
        FaultKind::NotYet => Words::Alone("form is not built yet"),
    }
}

fn push_wording(line: &mut String, wording: Words, detail: &str) -> Result<(), NoMemory>
    ensures { OnOk result (string_bytes line.new ≡ string_bytes line.old ++ worded wording detail.now) }
{
    match wording {
        Words::Alone(words) => push(line, words),
        Words::Naming(before, after) => {
            push(line, before)?;
            push(line, "\"")?;
            push(line, detail)?;
            push(line, "\"")?;
            push(line, after)
        }
    }
}

/// The chunks of a clash: the first one's number, and the other asset.
fn push_chunks(line: &mut String, first: u32, other: Option<u32>) -> Result<(), NoMemory>
    ensures { OnOk result (string_bytes line.new ≡ string_bytes line.old ++ (decimal first ++ codes " and " ++ other_asset other)) }
{
    push_number(line, u64::from(first))?;
    push(line, " and ")?;
    match other {
        Some(chunk) => {
            push(line, "chunk ")?;
            push_number(line, u64::from(chunk))
        }
        None => push(line, "the stats"),
    }
}

fn push_message(line: &mut String, kind: FaultKind, detail: &str) -> Result<(), NoMemory>
    ensures { OnOk result (string_bytes line.new ≡ string_bytes line.old ++ message_of kind detail.now) }
{
    push_wording(line, wording(kind), detail)?;
    if let FaultKind::AssetClash { first, other } = kind {
        push_chunks(line, first, other)?;
    }
    Ok(())
}

/// The fault's line, without an end of line.
pub fn fault_line(alloc: Global, fault: &Fault) -> Result<Vec<u8>, NoMemory>
    ensures { IfOk result (λ line. line.items ≡ line_of fault.now) }
{
    let mut line = String::new(alloc);
    push(&mut line, fault.place.path.get())?;
    push(&mut line, ":")?;
    push_number(&mut line, fault.place.line)?;
    push(&mut line, ":")?;
    push_number(&mut line, fault.place.column)?;
    push(&mut line, ": B")?;
    push_number(&mut line, u64::from(fault.kind.number()))?;
    push(&mut line, " ")?;
    push_message(&mut line, fault.kind, fault.detail.get())?;
    Ok(line.into_bytes())
}
