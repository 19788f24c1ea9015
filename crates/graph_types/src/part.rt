use pack_util::Text;

/// A part of an asset's name.
#[derive(Clone, PartialEq, Eq, Drop)]
pub enum Part {
    Fixed(Text),
    /// The chunk's name, or else its id.
    Name,
    Id,
    /// So many digits of the hash of the asset's bytes.
    Hash(u32),
}
