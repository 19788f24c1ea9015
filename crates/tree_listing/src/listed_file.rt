ghost use Rattle.std.specs.Prelude.{◌≡◌, nat_eq, refl};
ghost use Rattle.std.specs.Cmp.Lexicographic.{pointwise, slice_cmp, texts_po, texts_ties, on_texts, on_texts_equal};
ghost use Rattle.std.specs.Cmp.{on_po, partial_equiv_from_equiv};
ghost use Rattle.std.specs.Ordering.{nat_cmp, as_partial_cmp};

use pack_util::Text;
use std::cmp::Ordering;
use std::marker::Model;

/// A file with the number of its bytes.
#[derive(Drop)]
pub(crate) struct ListedFile {
    path: Text,
    length: u64,
}

impl Model for ListedFile {
    ghost use Rattle.std.specs.Prelude.{ℕ, List};

    ghost Value = { List ℕ × ℕ };

    ghost view = { λ file. (file.path, file.length) };
}

impl ListedFile {
    pub(crate) fn new(path: Text, length: u64) -> ListedFile
        ensures { result ≡ (path, length) }
    {
        ListedFile { path, length }
    }

    pub(crate) fn path(&self) -> &str
        ensures { result.now ≡ self.now.0 }
    {
        self.path.get()
    }

    pub(crate) fn length(&self) -> u64
        ensures { result ≡ self.now.1 }
    {
        self.length
    }
}

impl PartialEq for ListedFile {
    ghost eq = { λ one other. pointwise nat_eq one.0 other.0 };

    ghost laws = { partial_equiv_from_equiv (on_texts_equal (λ file. file.0)) };

    fn eq(&self, other: &ListedFile) -> bool {
        self.path() == other.path()
    }
}

impl Eq for ListedFile {
    ghost laws = { on_texts_equal (λ file. file.0) };
}

impl PartialOrd for ListedFile {
    ghost partial_cmp = { as_partial_cmp (λ one other. slice_cmp nat_cmp one.0 other.0) };

    ghost laws = { on_po (λ file. file.0) texts_po };

    fn partial_cmp(&self, other: &ListedFile) -> Option<Ordering> {
        Some(self.cmp(other))
    }
}

impl Ord for ListedFile {
    ghost cmp = { λ one other. slice_cmp nat_cmp one.0 other.0 };

    ghost total = { on_texts (λ file. file.0) };

    ghost matches_partial_cmp = { λ _ _. refl };

    ghost matches_eq = { λ one other. texts_ties one.0 other.0 };

    fn cmp(&self, other: &ListedFile) -> Ordering {
        self.path().cmp(other.path())
    }
}
