ghost use Rattle.std.specs.Prelude.{◌≡◌, ◌<◌, length, Some, slice_get};

use pack_util::FileId;
use std::marker::Model;

/// Each file's owner, by the file's number. Only closing a board makes one.
#[derive(Drop)]
pub struct Owners {
    pub(crate) list: Vec<Option<u32>>,
}

impl Model for Owners {
    ghost use Rattle.std.specs.Prelude.{ℕ, List, Option};

    ghost Value = { List (Option ℕ) };

    ghost view = { λ owners. owners.list.items };
}

impl Owners {
    /// The seat that claimed the file, and none where no seat did. Takes no memory.
    pub fn owner(&self, file: FileId) -> Option<u32>
        requires { file.0 < length self.now }
        ensures { slice_get self.now file.0 ≡ Some result }
    {
        self.list[file.0 as usize]
    }
}
