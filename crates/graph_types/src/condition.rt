ghost use Rattle.std.specs.Prelude.{◌≡◌, nat_eq, bytes_eq};
ghost use Rattle.std.specs.List.{starts_with, ends_with, list_all, list_any, slice_split};
ghost use Rattle.graph_types.specs.Condition.{has_part, has_folder, holds, is_separator};

use pack_util::{Seq, Text};
use sqlite_items::Boxed;

/// A test of a module's path.
#[derive(Drop)]
pub enum Condition {
    /// The path begins so.
    Prefix(Text),
    /// The path has this text somewhere.
    Contains(Text),
    EndsWith(Text),
    /// A segment before the last is this text.
    InDir(Text),
    And(Seq<Condition>),
    Or(Seq<Condition>),
    Not(Boxed<Condition>),
}

impl Condition {
    /// Whether a path meets the condition. Takes no memory.
    pub fn holds(&self, path: &str) -> bool
        ensures { result ≡ holds path.now self.now }
    {
        holds(self, path)
    }
}

#[cycle(holds)]
fn holds(condition: &Condition, path: &str) -> bool
    ensures { result ≡ holds path.now condition.now }
{
    match condition {
        Condition::Prefix(text) => begins_with(path, text.get()),
        Condition::Contains(text) => has_part(path, text.get()),
        Condition::EndsWith(text) => ends_with(path, text.get()),
        Condition::InDir(text) => has_folder(path, text.get()),
        Condition::And(members) => all_hold(members.as_slice(), path),
        Condition::Or(members) => some_holds(members.as_slice(), path),
        Condition::Not(member) => !holds(member.get(), path),
    }
}

#[cycle(holds)]
fn all_hold(conditions: &[Condition], path: &str) -> bool
    ensures { result ≡ list_all (holds path.now) conditions.now }
{
    for condition in conditions {
        if !holds(condition, path) {
            return false;
        }
    }
    true
}

#[cycle(holds)]
fn some_holds(conditions: &[Condition], path: &str) -> bool
    ensures { result ≡ list_any (holds path.now) conditions.now }
{
    for condition in conditions {
        if holds(condition, path) {
            return true;
        }
    }
    false
}

#[tactic(auto, using(std::proofs::lemmas::Str::Pattern::starts_text))]
fn begins_with(path: &str, front: &str) -> bool
    ensures { result ≡ starts_with nat_eq path.now front.now }
{
    path.starts_with(front)
}

#[tactic(auto, using(std::proofs::lemmas::Str::Pattern::ends_text))]
fn ends_with(path: &str, end: &str) -> bool
    ensures { result ≡ ends_with nat_eq path.now end.now }
{
    path.ends_with(end)
}

fn has_part(path: &str, part: &str) -> bool
    ensures { result ≡ has_part part.now path.now }
{
    path.contains(part)
}

fn has_folder(path: &str, name: &str) -> bool
    ensures { result ≡ has_folder name.now path.now }
{
    match path.rfind('/') {
        Some(end) => has_segment(&path[..end], name),
        None => false,
    }
}

fn has_segment(folder: &str, name: &str) -> bool
    ensures { result ≡ list_any (λ segment. bytes_eq segment name.now) (slice_split is_separator folder.now) }
{
    folder.split('/').any(|segment| segment == name)
}
