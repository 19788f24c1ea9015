ghost use Rattle.std.specs.Prelude.{◌≡◌, ◌++◌, map, OnOk};
ghost use Rattle.module_code.specs.Exports.{export_text, value_text};
ghost use Rattle.module_code.specs.Quoted.{with_commas};

use crate::numbers::number_of;
use crate::quoted::{add_comma, add_quoted};
use graph_types::{Export, ExportFrom};
use pack_util::{NoMemory, add, add_around};

fn add_value(text: &mut Vec<u8>, numbers: &[u32], from: &ExportFrom) -> Result<(), NoMemory>
    ensures { OnOk result (text.new.items ≡ text.old.items ++ value_text numbers.now from.now) }
{
    match from {
        ExportFrom::Local(name) => add(text, name.get().as_bytes()),
        ExportFrom::Name(item, name) => {
            add_around(text, b"__cp.g(__cp_i[", number_of(numbers, *item), b"],")?;
            add_quoted(text, name.get())?;
            add(text, b")")
        }
        ExportFrom::Space(item) => add_around(text, b"__cp_i[", number_of(numbers, *item), b"]"),
    }
}

fn add_export(text: &mut Vec<u8>, numbers: &[u32], export: &Export) -> Result<(), NoMemory>
    ensures { OnOk result (text.new.items ≡ text.old.items ++ export_text numbers.now export.now) }
{
    add_quoted(text, export.name.get())?;
    add(text, b":function(){return ")?;
    add_value(text, numbers, &export.from)?;
    add(text, b"}")
}

/// Adds the names that are exported.
pub fn add_exports(text: &mut Vec<u8>, numbers: &[u32], exports: &[Export]) -> Result<(), NoMemory>
    ensures { OnOk result (text.new.items ≡ text.old.items ++ with_commas (map (export_text numbers.now) exports.now)) }
{
    for (place, export) in exports.iter().enumerate() {
        add_comma(text, place)?;
        add_export(text, numbers, export)?;
    }
    Ok(())
}
