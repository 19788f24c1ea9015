//! The record of a text that is JavaScript.
ghost use Rattle.std.specs.Prelude.{◌≡◌, ◌≤◌, length, IfOk, Ok};
ghost use Rattle.es_tokens.specs.Tokens.{tokens_of};
ghost use Rattle.es_scan.specs.Scan.{scan_of};
ghost use Rattle.module_parse.specs.Scripts.{fault_kind, scanned_record, script_kind, script_record};
ghost use Rattle.module_parse.specs.Whole.{IsParsed};

use crate::bare::faulty_record;
use es_scan::laws::scan_is_whole;
use es_scan::{Scan, scan};
use es_tokens::laws::faults_lie_in_the_text;
use es_tokens::{Token, TokenEnd, TokenKind, tokens};
use fault_place::FaultKind;
use graph_types::{ModKind, ModRecord};
use pack_util::{Bytes, FileId, MAX_TEXT, NoMemory, Text};
use std::alloc::{AllocError, Global};

fn script_kind(es: bool) -> ModKind
    ensures { result ≡ script_kind es }
{
    if es { ModKind::Es } else { ModKind::Plain }
}

/// The kind of module fault that a fault of tokens is.
fn fault_kind(kind: TokenKind) -> FaultKind
    ensures { result ≡ fault_kind kind }
{
    match kind {
        TokenKind::NotUtf8 => FaultKind::NotUtf8,
        TokenKind::Unfinished => FaultKind::Unfinished,
        TokenKind::Stray => FaultKind::Stray,
        TokenKind::Unmatched => FaultKind::Unmatched,
        TokenKind::Depth => FaultKind::Depth,
        TokenKind::Open => FaultKind::Open,
    }
}

/// The record that a scan gives.
fn scanned_record(
    alloc: Global,
    file: FileId,
    path: &str,
    text: Bytes,
    scan: Scan,
) -> Result<ModRecord, NoMemory>
    ensures { IfOk result (λ rec. rec ≡ scanned_record file path.now text scan) }
{
    let size = text.get().len() as u64;
    let path = Text::new(alloc, path)?;
    Ok(ModRecord {
        file,
        path,
        size,
        kind: script_kind(scan.es),
        text,
        items: scan.items,
        binds: scan.binds,
        exports: scan.exports,
        stars: scan.stars,
        edits: scan.edits,
        notes: scan.notes,
        faults: scan.faults,
    })
}

fn record_of_tokens(
    alloc: Global,
    file: FileId,
    path: &str,
    text: Bytes,
    tokens: &[Token],
) -> Result<ModRecord, NoMemory>
    requires short { length text ≤ MAX_TEXT }
    requires tokens { tokens_of text ≡ Ok tokens.now }
    ensures is { IfOk result (λ rec. rec ≡ scanned_record file path.now text (scan_of path.now text tokens.now)) }
    ensures whole { IfOk result (IsParsed file) }
{
    scan_is_whole();
    let scan = scan(alloc, path, text.get(), tokens)?;
    scanned_record(alloc, file, path, text, scan)
}

/// The record of a text by its tokens, or by their first fault.
pub fn script_record(
    alloc: Global,
    file: FileId,
    path: &str,
    text: Bytes,
) -> Result<ModRecord, NoMemory>
    requires { length text ≤ MAX_TEXT }
    ensures is { IfOk result (λ rec. rec ≡ script_record file path.now text (tokens_of text)) }
    ensures whole { IfOk result (IsParsed file) }
{
    faults_lie_in_the_text();
    match tokens(alloc, text.get()) {
        Ok(tokens) => record_of_tokens(alloc, file, path, text, &tokens),
        Err(TokenEnd::Fault(fault)) => faulty_record(
            alloc,
            file,
            path,
            text,
            ModKind::Plain,
            fault.offset,
            fault_kind(fault.kind),
        ),
        Err(TokenEnd::NoMemory) => Err(AllocError),
    }
}
