//! Lists put together piece by piece.
ghost use Rattle.std.specs.Prelude.{◌≡◌, ◌++◌, option_to_list, OnOk};

use crate::NoMemory;

/// Adds a member where there is one.
pub fn add_some<T: Drop>(members: &mut Vec<T>, member: Option<T>) -> Result<(), NoMemory>
    ensures { OnOk result (members.new.items ≡ members.old.items ++ option_to_list member) }
{
    if let Some(member) = member {
        members.push(member)?;
    }
    Ok(())
}
