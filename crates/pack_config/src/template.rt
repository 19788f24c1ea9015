ghost use Rattle.std.specs.Prelude.{◌≡◌, ◌≤◌, [], true, IsTrue, IfOk, OnOk, if◌then◌else◌};
ghost use Rattle.std.specs.Option.{option_copied};
ghost use Rattle.asset_names.specs.Template.{IsTemplateOf};
ghost use Rattle.pack_config.specs.Templates.{is_template, template_rule, template_text};
ghost use Rattle.pack_config.specs.Values.{out_of_range, where_given};
ghost use Rattle.pack_config.specs.inner.Found.{after};

use crate::found::Found;
use crate::member::text_of;
use asset_names::{TemplateEnd, read_template};
use graph_types::Template;
use json_order::JsonTree;
use pack_util::{NoMemory, Seq};
use std::alloc::{AllocError, Global};

/// The template that a text is, else the default. Where the text is none the template is empty.
pub(crate) fn template(
    alloc: Global,
    found: &mut Found,
    value: Option<&JsonTree>,
    default: &str,
    digits: u32,
) -> Result<Template, NoMemory>
    requires at_least_one { 1 ≤ digits }
    requires at_most_all { digits ≤ 64 }
    requires default { IsTrue (is_template digits default.now) }
    ensures faults { OnOk result (found.new ≡ after found.old (where_given (template_rule digits) (option_copied value.entry))) }
    ensures value { IfOk result (λ template. where_given (template_rule digits) (option_copied value.entry) ≡ [] → IsTemplateOf digits (template_text default.now (option_copied value.entry)) template.parts) }
{
    let Some(tree) = value else {
        return default_template(alloc, default, digits)
    };
    let Some(text) = text_of(tree) else {
        found.wrong_type(tree);
        return default_template(alloc, default, digits);
    };
    given_template(alloc, found, tree, text, digits)
}

/// The template of the text of a value.
fn given_template(
    alloc: Global,
    found: &mut Found,
    tree: &JsonTree,
    text: &str,
    digits: u32,
) -> Result<Template, NoMemory>
    requires at_least_one { 1 ≤ digits }
    requires at_most_all { digits ≤ 64 }
    ensures faults { OnOk result (found.new ≡ after found.old (if is_template digits text.now then [] else out_of_range tree.now)) }
    ensures value { IfOk result (λ template. is_template digits text.now ≡ true → IsTemplateOf digits text.now template.parts) }
{
    match read_template(alloc, text, digits) {
        Ok(template) => Ok(template),
        Err(TemplateEnd::BadTemplate) => {
            found.out_of_range(tree);
            Ok(empty(alloc))
        }
        Err(TemplateEnd::NoMemory) => Err(AllocError),
    }
}

fn default_template(alloc: Global, text: &str, digits: u32) -> Result<Template, NoMemory>
    requires at_least_one { 1 ≤ digits }
    requires at_most_all { digits ≤ 64 }
    requires default { IsTrue (is_template digits text.now) }
    ensures { IfOk result (λ template. IsTemplateOf digits text.now template.parts) }
{
    match read_template(alloc, text, digits) {
        Ok(template) => Ok(template),
        Err(TemplateEnd::BadTemplate) => Ok(empty(alloc)),
        Err(TemplateEnd::NoMemory) => Err(AllocError),
    }
}

fn empty(alloc: Global) -> Template {
    Template {
        parts: Seq::new(alloc),
    }
}
