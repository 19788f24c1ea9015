ghost use Rattle.std.specs.Prelude.{◌≡◌};
ghost use Rattle.resolve_path.specs.Packages.{condition_of};

/// How a module asks for another.
#[derive(Clone, Copy, PartialEq, Eq)]
pub enum RequestKind {
    Import,
    Require,
}

impl RequestKind {
    /// The condition of `exports` that holds for it.
    pub(crate) fn condition(self) -> &'static str
        ensures { result.now ≡ condition_of self }
    {
        match self {
            RequestKind::Import => "import",
            RequestKind::Require => "require",
        }
    }
}
