//! The text of a module.
ghost use Rattle.std.specs.Prelude.{◌≡◌, ◌++◌, ◌<◌, ◌≤◌, string_bytes, IfOk, OnOk};
ghost use Rattle.tree_sample.specs.Sample.{library_line, load_line, module_line, module_text, third_line};

use crate::digits::push_numbered;
use pack_util::NoMemory;
use std::alloc::Global;

/// The text of module `i` of `n`.
pub(crate) fn module_text(alloc: Global, n: u32, i: u32) -> Result<String, NoMemory>
    requires within { i < n }
    requires few { n ≤ 20_000 }
    ensures { IfOk result (λ text. string_bytes text ≡ module_text n i) }
{
    let mut text = String::new(alloc);
    push_library(&mut text, i)?;
    push_import(&mut text, n, 3 * i + 1)?;
    push_import(&mut text, n, 3 * i + 2)?;
    push_third(&mut text, n, i)?;
    Ok(text)
}

fn push_library(text: &mut String, i: u32) -> Result<(), NoMemory>
    ensures { OnOk result (string_bytes text.new ≡ string_bytes text.old ++ library_line i) }
{
    if i % 12 == 3 {
        push_numbered(text, "import \"lib", 1, i % 7, "\";\n")?;
    }
    Ok(())
}

/// The line that imports a module, where there is one.
fn push_import(text: &mut String, n: u32, other: u32) -> Result<(), NoMemory>
    ensures { OnOk result (string_bytes text.new ≡ string_bytes text.old ++ module_line n other) }
{
    if other < n {
        push_numbered(text, "import \"./m", 5, other, ".js\";\n")?;
    }
    Ok(())
}

fn push_third(text: &mut String, n: u32, i: u32) -> Result<(), NoMemory>
    requires { i < 20_000 }
    ensures { OnOk result (string_bytes text.new ≡ string_bytes text.old ++ third_line n i) }
{
    if i % 4 == 0 {
        push_load(text, n, 3 * i + 3)
    } else {
        push_import(text, n, 3 * i + 3)
    }
}

/// The line that loads a module when it runs, where there is one.
fn push_load(text: &mut String, n: u32, other: u32) -> Result<(), NoMemory>
    ensures { OnOk result (string_bytes text.new ≡ string_bytes text.old ++ load_line n other) }
{
    if other < n {
        push_numbered(text, "import(\"./m", 5, other, ".js\");\n")?;
    }
    Ok(())
}
