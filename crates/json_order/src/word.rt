ghost use Rattle.std.specs.Prelude.{◌≡◌, ◌++◌, ◌∷◌, [], true, false, encode_utf8, string_bytes, OnOk, MatchOption};
ghost use Rattle.std.specs.Str.{is_utf8};

use std::alloc::{AllocError, Global};
use std::marker::Model;

/// Bytes that are still coming.
#[derive(Drop)]
pub(crate) struct Word {
    vec: Vec<u8>,
}

impl Model for Word {
    ghost use Rattle.std.specs.Prelude.{ℕ, List};
    ghost use Rattle.std.specs.Coded.{coded_list, coded_ℕ};

    ghost Value = { List ℕ };

    ghost coded = { coded_list coded_ℕ };

    ghost view = { λ word. word.vec.items };
}

impl Word {
    pub(crate) fn new(alloc: Global) -> Word
        ensures { result ≡ [] }
    {
        Word {
            vec: Vec::new(alloc),
        }
    }

    pub(crate) fn push(&mut self, byte: u8) -> Result<(), AllocError>
        ensures { OnOk result (self.new ≡ self.old ++ byte ∷ []) }
    {
        self.vec.push(byte)?;
        Ok(())
    }

    pub(crate) fn push_char(&mut self, c: char) -> Result<(), AllocError>
        ensures { OnOk result (self.new ≡ self.old ++ encode_utf8 c) }
    {
        let mut bytes = [0; 4];
        self.vec
            .extend_from_slice(c.encode_utf8(&mut bytes).as_bytes())
    }

    pub(crate) fn into_string(self) -> Option<String>
        ensures { MatchOption result (is_utf8 self ≡ false) (λ string. (is_utf8 self ≡ true) × (string_bytes string ≡ self)) }
    {
        let Word { vec } = self;
        String::from_utf8(vec).ok()
    }
}

/// The key of a member whose value is still coming.
#[derive(Drop)]
pub(crate) struct Key {
    string: String,
}

impl Model for Key {
    ghost use Rattle.std.specs.Prelude.{ℕ, List, string_bytes};
    ghost use Rattle.std.specs.Coded.{coded_list, coded_ℕ};

    ghost Value = { List ℕ };

    ghost coded = { coded_list coded_ℕ };

    ghost view = { λ key. string_bytes key.string };
}

impl Key {
    pub(crate) fn empty(alloc: Global) -> Key
        ensures { result ≡ [] }
    {
        Key {
            string: String::new(alloc),
        }
    }

    pub(crate) fn from_string(string: String) -> Key
        ensures { result ≡ string_bytes string }
    {
        Key { string }
    }

    pub(crate) fn into_string(self) -> String
        ensures { string_bytes result ≡ self }
    {
        let Key { string } = self;
        string
    }
}
