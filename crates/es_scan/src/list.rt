ghost use Rattle.std.specs.Prelude.{◌≡◌, ◌++◌, ◌∷◌, [], option_to_list, OnOk, IfOk};

use pack_util::{NoMemory, Seq};
use std::alloc::Global;

/// Adds all members of another list at the end.
pub(crate) fn append<T: Drop>(list: &mut Seq<T>, more: Seq<T>) -> Result<(), NoMemory>
    ensures { OnOk result (list.new ≡ list.old ++ more) }
{
    for member in more.into_vec() {
        list.push(member)?;
    }
    Ok(())
}

/// The list of one member.
pub(crate) fn one<T: Drop>(alloc: Global, member: T) -> Result<Seq<T>, NoMemory>
    ensures { IfOk result (λ list. list ≡ member ∷ []) }
{
    let mut list = Seq::new(alloc);
    list.push(member)?;
    Ok(list)
}

/// The member where there is one.
pub(crate) fn option_list<T: Drop>(alloc: Global, member: Option<T>) -> Result<Seq<T>, NoMemory>
    ensures { IfOk result (λ list. list ≡ option_to_list member) }
{
    match member {
        Some(member) => one(alloc, member),
        None => Ok(Seq::new(alloc)),
    }
}
