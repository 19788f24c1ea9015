ghost use Rattle.std.specs.Prelude.{◌≡◌, ◌++◌, ◌∷◌, [], length, OnOk, OnErr};
ghost use Rattle.std.specs.Cmp.Lexicographic.{lists_equiv, lists_per, pointwise};
ghost use Rattle.std.specs.List.{AllZip};

use crate::NoMemory;
use std::alloc::Global;
use std::marker::Model;

/// A `Vec` that contracts see as the list of its members.
#[derive(Drop)]
pub struct Seq<T> {
    vec: Vec<T>,
}

impl<T> Model for Seq<T> {
    ghost use Rattle.std.specs.Prelude.{List};
    ghost use Rattle.std.specs.Coded.{coded_list};

    ghost Value = { List T };

    ghost coded = { coded_list T.code };

    ghost view = { λ seq. seq.vec.items };
}

impl<T> Seq<T> {
    /// The empty list, which takes no memory.
    pub fn new(alloc: Global) -> Seq<T>
        ensures { result ≡ [] }
    {
        Seq {
            vec: Vec::new(alloc),
        }
    }

    /// Takes no memory.
    pub fn from_vec(vec: Vec<T>) -> Seq<T>
        ensures { result ≡ vec.items }
    {
        Seq { vec }
    }

    /// Takes no memory.
    pub fn into_vec(self) -> Vec<T>
        ensures { result.items ≡ self }
    {
        let Seq { vec } = self;
        vec
    }

    pub fn as_slice(&self) -> &[T]
        ensures { result.now ≡ self.now }
    {
        self.vec.as_slice()
    }
}

impl<T: Drop> Seq<T> {
    /// Adds a member at the end.
    pub fn push(&mut self, member: T) -> Result<(), NoMemory>
        ensures ok { OnOk result (self.new ≡ self.old ++ member ∷ []) }
        ensures err { OnErr result (self.new ≡ self.old) }
    {
        self.vec.push(member)?;
        Ok(())
    }
}

impl<T: Clone> Clone for Seq<T> {
    ghost is_clone = { λ source copy. AllZip T.is_clone source copy };

    fn clone(&self) -> Result<Seq<T>, NoMemory> {
        Ok(Seq {
            vec: self.vec.clone()?,
        })
    }
}

impl<T: PartialEq> PartialEq for Seq<T> {
    ghost eq = { pointwise T.eq };

    ghost laws = { lists_per T.laws };

    fn eq(&self, other: &Seq<T>) -> bool {
        self.as_slice() == other.as_slice()
    }
}

impl<T: Eq> Eq for Seq<T> {
    ghost laws = { lists_equiv T.Eq.laws };
}
