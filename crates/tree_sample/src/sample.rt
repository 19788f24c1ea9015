ghost use Rattle.std.specs.Prelude.{◌≡◌, ◌<◌, ◌≤◌, ◌+◌, [], string_bytes, IfOk, OnOk};
ghost use Rattle.std.specs.Ordering.{nat_cmp};
ghost use Rattle.std.specs.Cmp.Lexicographic.{slice_cmp};
ghost use Rattle.std.specs.FinMap.Entries.{put};
ghost use Rattle.pack_util.specs.Answers.{Answers};
ghost use Rattle.tree_sample.specs.Sample.{comment, libraries, library_path, library_text, module_path, sample, sample_of, sample_to};
ghost use Rattle.tree_sample.specs.declared.sample_end.SampleEnd.TheVariants.{NoMemory};

use crate::SampleEnd;
use crate::digits::push_numbered;
use crate::module::module_text;
use outside::MemTree;
use pack_util::NoMemory;
use std::alloc::{AllocError, Global};

/// How many modules a sample may have.
const MOST_MODULES: u32 = 20_000;

const LIBRARIES: u32 = 7;

/// The tree of a sample of so many modules.
pub fn sample_tree(alloc: Global, n: u32) -> Result<MemTree, SampleEnd>
    ensures { Answers NoMemory (λ tree. tree) (sample_of n) result }
{
    if n < 1 || n > MOST_MODULES {
        return Err(SampleEnd::OutOfRange);
    }
    Ok(whole(alloc, n)?)
}

#[tactic(auto, using(crate::proofs::Steps::no_modules))]
fn whole(alloc: Global, n: u32) -> Result<MemTree, NoMemory>
    requires { n ≤ 20_000 }
    ensures { IfOk result (λ tree. tree ≡ sample n) }
{
    let mut tree = with_libraries(alloc)?;
    for i in 0..n {
        add_module(alloc, &mut tree, n, i)?;
    }
    Ok(tree)
}

#[tactic(auto, using(crate::proofs::Steps::no_libraries))]
fn with_libraries(alloc: Global) -> Result<MemTree, NoMemory>
    ensures { IfOk result (λ tree. tree ≡ libraries 7) }
{
    let mut tree = MemTree::new(alloc);
    let text = library_text(alloc)?;
    for k in 0..LIBRARIES {
        add_library(alloc, &mut tree, k, text.as_bytes())?;
    }
    Ok(tree)
}

fn add_library(alloc: Global, tree: &mut MemTree, k: u32, text: &[u8]) -> Result<(), NoMemory>
    requires few { k < 7 }
    requires before { tree.old ≡ libraries k }
    requires text { text.now ≡ library_text }
    ensures { OnOk result (tree.new ≡ libraries (k + 1)) }
{
    let path = library_path(alloc, k)?;
    add(alloc, tree, path.as_str(), text)
}

fn add_module(alloc: Global, tree: &mut MemTree, n: u32, i: u32) -> Result<(), NoMemory>
    requires within { i < n }
    requires few { n ≤ 20_000 }
    requires before { tree.old ≡ sample_to n i }
    ensures { OnOk result (tree.new ≡ sample_to n (i + 1)) }
{
    let path = module_path(alloc, i)?;
    let text = module_text(alloc, n, i)?;
    add(alloc, tree, path.as_str(), text.as_bytes())
}

/// Adds a file. No path of a sample is another's folder, or there before.
#[tactic(auto, using(crate::proofs::Steps::put_by))]
fn add(alloc: Global, tree: &mut MemTree, path: &str, bytes: &[u8]) -> Result<(), NoMemory>
    ensures { OnOk result (tree.new ≡ put (slice_cmp nat_cmp) path.now bytes.now tree.old) }
{
    match tree.with(alloc, path, bytes) {
        Ok(()) => Ok(()),
        Err(_) => Err(AllocError),
    }
}

fn library_path(alloc: Global, k: u32) -> Result<String, NoMemory>
    ensures { IfOk result (λ path. string_bytes path ≡ library_path k) }
{
    let mut path = String::new(alloc);
    push_numbered(&mut path, "node_modules/lib", 1, k, "/index.js")?;
    Ok(path)
}

fn module_path(alloc: Global, i: u32) -> Result<String, NoMemory>
    ensures { IfOk result (λ path. string_bytes path ≡ module_path i) }
{
    let mut path = String::new(alloc);
    push_numbered(&mut path, "src/m", 5, i, ".js")?;
    Ok(path)
}

/// A comment that makes a library large enough for a chunk of its own.
fn library_text(alloc: Global) -> Result<String, NoMemory>
    ensures { IfOk result (λ text. string_bytes text ≡ library_text) }
{
    comment(alloc, 24_997)
}

fn comment(alloc: Global, filling: usize) -> Result<String, NoMemory>
    ensures { IfOk result (λ text. string_bytes text ≡ comment filling) }
{
    let mut text = String::from_str(alloc, "//")?;
    text.push_str("x".repeat(alloc, filling)?.as_str())?;
    text.push_str("\n")?;
    Ok(text)
}
