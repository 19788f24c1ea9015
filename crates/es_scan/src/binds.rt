ghost use Rattle.std.specs.Prelude.{◌≡◌, ◌+◌, ◌-◌, ◌<◌, ◌^◌, IfOk, map, length};
ghost use Rattle.es_scan.specs.Names.{left_name, right_name};
ghost use Rattle.es_scan.specs.Binds.{default_bind, space_bind, named_bind, named_binds, shape_binds, binds_by};

use crate::list::append;
use crate::names::{left_name, right_name};
use es_tokens::Token;
use form_shapes::{Shape, Source, Standing, owned};
use graph_types::Bind;
use pack_util::{NoMemory, Seq, Text};
use std::alloc::Global;

fn default_bind(alloc: Global, source: Source, item: u32, at: usize) -> Result<Bind, NoMemory>
    ensures { IfOk result
        (λ bind. bind ≡ default_bind source.entry.text.now source.entry.tokens.now item at) }
{
    Ok(Bind {
        local: owned(alloc, source.text_at(at))?,
        item,
        name: Some(Text::new(alloc, "default")?),
    })
}

fn space_bind(alloc: Global, source: Source, item: u32, at: usize) -> Result<Bind, NoMemory>
    ensures { IfOk result
        (λ bind. bind ≡ space_bind source.entry.text.now source.entry.tokens.now item at) }
{
    Ok(Bind {
        local: owned(alloc, source.text_at(at))?,
        item,
        name: None,
    })
}

fn named_bind(alloc: Global, text: &[u8], item: u32, part: &[Token]) -> Result<Bind, NoMemory>
    ensures { IfOk result (λ bind. bind ≡ named_bind text.now item part.now) }
{
    Ok(Bind {
        local: owned(alloc, right_name(text, part))?,
        item,
        name: Some(owned(alloc, left_name(text, part))?),
    })
}

/// The binds of the specifiers in the braces at a token.
fn named_binds(alloc: Global, source: Source, item: u32, at: usize) -> Result<Seq<Bind>, NoMemory>
    requires { at < 2 ^ 33 }
    ensures { IfOk result
        (λ binds. binds ≡ named_binds source.entry.text.now source.entry.tokens.now item at) }
{
    let parts = source.specifiers(alloc, at)?;
    let mut binds = Seq::new(alloc);
    for part in &parts {
        binds.push(named_bind(alloc, source.text, item, part)?)?;
    }
    Ok(binds)
}

fn shape_binds(
    alloc: Global,
    source: Source,
    item: u32,
    at: usize,
    shape: Shape,
) -> Result<Seq<Bind>, NoMemory>
    requires { at < 2 ^ 32 }
    ensures { IfOk result
        (λ binds. binds ≡ shape_binds source.entry.text.now source.entry.tokens.now item at shape) }
{
    let mut binds = Seq::new(alloc);
    match shape {
        Shape::DefaultImport => binds.push(default_bind(alloc, source, item, at + 1)?)?,
        Shape::SpaceImport => binds.push(space_bind(alloc, source, item, at + 3)?)?,
        Shape::NamesImport => return named_binds(alloc, source, item, at + 1),
        Shape::DefaultSpaceImport => {
            binds.push(default_bind(alloc, source, item, at + 1)?)?;
            binds.push(space_bind(alloc, source, item, at + 5)?)?;
        }
        Shape::DefaultNamesImport => {
            binds.push(default_bind(alloc, source, item, at + 1)?)?;
            append(&mut binds, named_binds(alloc, source, item, at + 3)?)?;
        }
        _ => {}
    }
    Ok(binds)
}

/// The local names that what stands at a token declares for a module.
#[tactic(auto, unfolding(crate::specs::Binds::binds_by))]
pub(crate) fn binds_by(
    alloc: Global,
    source: Source,
    item: u32,
    at: usize,
    standing: Standing,
) -> Result<Seq<Bind>, NoMemory>
    requires { at < 2 ^ 32 }
    ensures { IfOk result
        (λ binds. binds ≡ binds_by source.entry.text.now source.entry.tokens.now item at standing) }
{
    match standing {
        Standing::Declaration(form) => shape_binds(alloc, source, item, at, form.shape),
        _ => Ok(Seq::new(alloc)),
    }
}
