ghost use Rattle.std.specs.Prelude.{◌≡◌, ◌++◌, [], OnOk, if◌then◌else◌};
ghost use Rattle.module_code.specs.Ids.{target_id};
ghost use Rattle.module_code.specs.Loads.{one_load, star_text, item_load, loads_text};
ghost use Rattle.module_code.specs.Numbers.{load_numbers};

use crate::SealView;
use crate::ids::add_target_id;
use crate::numbers::{declares, starred_items};
use graph_types::{Item, ModRecord};
use pack_util::{NoMemory, add, add_around};

fn add_one_load(
    text: &mut Vec<u8>,
    view: &SealView<'_>,
    number: u64,
    item: &Item,
) -> Result<(), NoMemory>
    ensures { OnOk result (text.new.items ≡ text.old.items ++ one_load number (target_id view.now item.now)) }
{
    add_around(text, b"__cp_i[", number, b"]=__cp(")?;
    add_target_id(text, view, item)?;
    add(text, b");")
}

fn add_star(text: &mut Vec<u8>, number: u64, starred: bool) -> Result<(), NoMemory>
    ensures { OnOk result (text.new.items ≡ text.old.items ++ (if starred then star_text number else [])) }
{
    if starred {
        add_around(text, b"__cp.s(exports,__cp_i[", number, b"]);")?;
    }
    Ok(())
}

fn add_item_load(
    text: &mut Vec<u8>,
    view: &SealView<'_>,
    number: u64,
    starred: bool,
    item: &Item,
) -> Result<(), NoMemory>
    ensures { OnOk result (text.new.items ≡ text.old.items ++ item_load view.now number starred item.now) }
{
    if declares(item.kind) {
        add_one_load(text, view, number, item)?;
        add_star(text, number, starred)?;
    }
    Ok(())
}

/// Adds the loads of a module's imports.
pub fn add_loads(
    text: &mut Vec<u8>,
    view: &SealView<'_>,
    numbers: &[u32],
    rec: &ModRecord,
) -> Result<(), NoMemory>
    requires { numbers.now ≡ load_numbers rec.now.items }
    ensures { OnOk result (text.new.items ≡ text.old.items ++ loads_text view.now rec.now) }
{
    let items = rec.items.as_slice();
    let starred = starred_items(*text.allocator(), rec.stars.as_slice(), items.len())?;
    for (place, item) in items.iter().enumerate() {
        add_item_load(text, view, numbers[place] as u64, starred[place], item)?;
    }
    Ok(())
}
