ghost use Rattle.std.specs.Prelude.{◌≡◌, ◌++◌, map, OnOk};
ghost use Rattle.module_code.specs.Binds.{bind_text, bound_name};
ghost use Rattle.module_code.specs.Quoted.{with_commas};

use crate::numbers::number_of;
use crate::quoted::{add_comma, add_quoted};
use graph_types::Bind;
use pack_util::{NoMemory, Text, add, add_around};

fn add_bound_name(text: &mut Vec<u8>, name: &Option<Text>) -> Result<(), NoMemory>
    ensures { OnOk result (text.new.items ≡ text.old.items ++ bound_name name.now) }
{
    match name {
        Some(name) => {
            add(text, b",")?;
            add_quoted(text, name.get())
        }
        None => Ok(()),
    }
}

fn add_bind(text: &mut Vec<u8>, numbers: &[u32], bind: &Bind) -> Result<(), NoMemory>
    ensures { OnOk result (text.new.items ≡ text.old.items ++ bind_text numbers.now bind.now) }
{
    add_quoted(text, bind.local.get())?;
    add_around(text, b":[", number_of(numbers, bind.item), b"")?;
    add_bound_name(text, &bind.name)?;
    add(text, b"]")
}

/// Adds the names that imports declare.
pub fn add_binds(text: &mut Vec<u8>, numbers: &[u32], binds: &[Bind]) -> Result<(), NoMemory>
    ensures { OnOk result (text.new.items ≡ text.old.items ++ with_commas (map (bind_text numbers.now) binds.now)) }
{
    for (place, bind) in binds.iter().enumerate() {
        add_comma(text, place)?;
        add_bind(text, numbers, bind)?;
    }
    Ok(())
}
