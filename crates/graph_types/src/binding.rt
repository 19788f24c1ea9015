use pack_util::Text;

/// A local name that an import declares. Without a name it is bound to the whole module.
#[derive(Clone, PartialEq, Eq, Drop)]
pub struct Bind {
    pub local: Text,
    /// The number of the import's item.
    pub item: u32,
    pub name: Option<Text>,
}

/// What an exported name stands for.
#[derive(Clone, PartialEq, Eq, Drop)]
pub enum ExportFrom {
    /// A name of the module itself.
    Local(Text),
    /// A name of the module that the item with this number names.
    Name(u32, Text),
    /// The whole module that the item with this number names.
    Space(u32),
}

#[derive(Clone, PartialEq, Eq, Drop)]
pub struct Export {
    pub name: Text,
    pub from: ExportFrom,
}

/// An `export *`: all names of the module that the item with this number names.
#[derive(Clone, Copy, PartialEq, Eq)]
pub struct Star {
    pub item: u32,
}
