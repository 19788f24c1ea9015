ghost use Rattle.std.specs.Prelude.{◌≡◌, ◌++◌, map, flat_map, IfOk, OnOk};
ghost use Rattle.serde_json.specs.View.{view};
ghost use Rattle.stats_text.specs.Stats.{list_stats, kind_name, note_stats, notes_in};

use crate::names::text_value;
use graph_types::{ModRecord, ModuleGraph, Note, NoteKind};
use pack_util::{ModuleNo, NoMemory};
use serde_json::{Map, Value, put};
use std::alloc::Global;

fn kind_name(kind: NoteKind) -> &'static str
    ensures { result.now ≡ kind_name kind }
{
    match kind {
        NoteKind::N1 => "N1",
        NoteKind::N2 => "N2",
        NoteKind::N3 => "N3",
        NoteKind::N4 => "N4",
    }
}

fn note_value(alloc: Global, path: &str, note: &Note) -> Result<Value, NoMemory>
    ensures { IfOk result (λ value. view value ≡ note_stats path.now note.now) }
{
    let mut members = Map::new(alloc);
    put(&mut members, alloc, "at", Value::from(note.at))?;
    let detail = text_value(alloc, note.detail.get())?;
    put(&mut members, alloc, "detail", detail)?;
    let kind = text_value(alloc, kind_name(note.kind))?;
    put(&mut members, alloc, "kind", kind)?;
    let path = text_value(alloc, path)?;
    put(&mut members, alloc, "path", path)?;
    Ok(Value::Object(members))
}

fn add_notes(notes: &mut Vec<Value>, alloc: Global, rec: &ModRecord) -> Result<(), NoMemory>
    ensures { OnOk result (map view notes.new.items ≡ map view notes.old.items ++ notes_in rec.now) }
{
    for note in rec.notes.as_slice() {
        notes.push(note_value(alloc, rec.path.get(), note)?)?;
    }
    Ok(())
}

/// The notes of all modules, by module.
pub fn notes_value(alloc: Global, graph: &ModuleGraph) -> Result<Value, NoMemory>
    ensures { IfOk result (λ value. view value ≡ list_stats (flat_map notes_in graph.now.records)) }
{
    let mut notes = Vec::new(alloc);
    for place in 0..graph.count() {
        add_notes(&mut notes, alloc, graph.rec(ModuleNo(place)))?;
    }
    Ok(Value::Array(notes))
}
