//! The record of a text, read as its path says.
ghost use Rattle.std.specs.Prelude.{◌≡◌, ◌≤◌, ◌||◌, codes, nat_eq, length, IfOk};
ghost use Rattle.std.specs.List.{ends_with};
ghost use Rattle.module_parse.specs.Parsed.{IsReading, Reading, is_json, is_script, json_record, parsed_record, value_record};
ghost use Rattle.module_parse.specs.Whole.{IsParsed};

use crate::bare::{bare_record, faulty_record};
use crate::script::script_record;
use fault_place::FaultKind;
use graph_types::{ModKind, ModRecord};
use json_order::laws::faults_lie_in_the_text;
use json_order::{JsonEnd, read};
use pack_util::{Bytes, FileId, MAX_TEXT, NoMemory, Seq};
use std::alloc::{AllocError, Global};

#[tactic(auto, using(std::proofs::lemmas::Str::Pattern::ends_text))]
fn has_ending(path: &str, ending: &str) -> bool
    ensures { result ≡ ends_with nat_eq path.now ending.now }
{
    path.ends_with(ending)
}

fn is_json(path: &str) -> bool
    ensures { result ≡ is_json path.now }
{
    has_ending(path, ".json")
}

fn is_script(path: &str) -> bool
    ensures { result ≡ is_script path.now }
{
    has_ending(path, ".js") || has_ending(path, ".mjs") || has_ending(path, ".cjs")
}

/// The record of a text that is one JSON value.
fn value_record(alloc: Global, file: FileId, path: &str, text: Bytes) -> Result<ModRecord, NoMemory>
    ensures { IfOk result (λ rec. rec ≡ value_record file path.now text) }
{
    let size = text.get().len() as u64;
    let faults = Seq::new(alloc);
    bare_record(alloc, file, path, size, ModKind::Json, text, faults)
}

/// The record of a text that is to be one JSON value.
fn json_record(alloc: Global, file: FileId, path: &str, text: Bytes) -> Result<ModRecord, NoMemory>
    requires { length text ≤ MAX_TEXT }
    ensures is { (reading : Reading) → IsReading reading → IfOk result (λ rec. rec ≡ json_record file path.now text (reading text)) }
    ensures whole { IfOk result (IsParsed file) }
{
    faults_lie_in_the_text();
    match read(alloc, text.get()) {
        Ok(_) => value_record(alloc, file, path, text),
        Err(JsonEnd::Fault(fault)) => faulty_record(
            alloc,
            file,
            path,
            text,
            ModKind::Json,
            fault.offset,
            FaultKind::BadJson,
        ),
        Err(JsonEnd::NoMemory) => Err(AllocError),
    }
}

/// The record of the text of the file at a path, before its requests are resolved.
pub fn parse(alloc: Global, file: FileId, path: &str, text: Bytes) -> Result<ModRecord, NoMemory>
    requires { length text ≤ MAX_TEXT }
    ensures is { (reading : Reading) → IsReading reading → IfOk result (λ rec. rec ≡ parsed_record reading file path.now text) }
    ensures whole { IfOk result (IsParsed file) }
{
    if is_json(path) {
        json_record(alloc, file, path, text)
    } else if is_script(path) {
        script_record(alloc, file, path, text)
    } else {
        faulty_record(alloc, file, path, text, ModKind::Bad, 0, FaultKind::BadType)
    }
}
