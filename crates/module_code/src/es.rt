ghost use Rattle.std.specs.Prelude.{◌≡◌, ◌++◌, OnOk};
ghost use Rattle.graph_types.specs.Whole.{IsWhole};
ghost use Rattle.module_code.specs.ModuleText.{imported_names, exported_names, es_text};
ghost use Rattle.module_code.specs.Numbers.{load_numbers};
ghost use Rattle.module_code.specs.View.{IsSealing};

use crate::SealView;
use crate::binds::add_binds;
use crate::body::add_body;
use crate::exports::add_exports;
use crate::loads::add_loads;
use crate::numbers::load_numbers;
use graph_types::ModRecord;
use pack_util::{ModuleNo, NoMemory, add};

fn add_imported_names(text: &mut Vec<u8>, numbers: &[u32], rec: &ModRecord) -> Result<(), NoMemory>
    requires { numbers.now ≡ load_numbers rec.now.items }
    ensures { OnOk result (text.new.items ≡ text.old.items ++ imported_names rec.now) }
{
    add(
        text,
        b"function(module,exports,__cp){var __cp_i=[];with(__cp.b(__cp_i,{",
    )?;
    add_binds(text, numbers, rec.binds.as_slice())?;
    add(text, b"})){")
}

fn add_exported_names(text: &mut Vec<u8>, numbers: &[u32], rec: &ModRecord) -> Result<(), NoMemory>
    requires { numbers.now ≡ load_numbers rec.now.items }
    ensures { OnOk result (text.new.items ≡ text.old.items ++ exported_names rec.now) }
{
    add(text, b"(function(){\"use strict\";__cp.d(exports,{")?;
    add_exports(text, numbers, rec.exports.as_slice())?;
    add(text, b"});")
}

/// Adds the text of a module with imports or exports.
pub fn add_es(
    text: &mut Vec<u8>,
    view: &SealView<'_>,
    m: ModuleNo,
    rec: &ModRecord,
) -> Result<(), NoMemory>
    requires sealing { IsSealing view.now }
    requires whole { IsWhole rec.now }
    ensures { OnOk result (text.new.items ≡ text.old.items ++ es_text view.now m.0 rec.now) }
{
    let table = load_numbers(*text.allocator(), rec.items.as_slice())?;
    let numbers = table.as_slice();
    add_imported_names(text, numbers, rec)?;
    add_exported_names(text, numbers, rec)?;
    add_loads(text, view, numbers, rec)?;
    add(text, b"\n")?;
    add_body(text, view, m, rec)?;
    add(text, b"\n}).call(undefined)}}")
}
