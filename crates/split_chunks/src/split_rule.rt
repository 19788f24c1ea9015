/// A rule that a split keeps. They are tested in this order.
#[derive(Clone, Copy, PartialEq, Eq)]
pub enum SplitRule {
    /// The cache group is there, isn't spent, and has candidates of the form.
    Group,
    /// There is a chunk, and the cache group may take modules from each.
    Selection,
    /// No chunk is in a group with as many chunks as may be loaded at once.
    Requests,
    /// The chunks are a set of chunks that share modules.
    Sharing,
    /// The modules are those that the chunks share.
    Modules,
    /// The modules are large enough.
    Size,
    /// The chunk that has the modules is the one that it has to be.
    Made,
}

/// The first split of a list that breaks a rule, and the first rule that it breaks.
#[derive(Clone, Copy, PartialEq, Eq)]
pub struct SplitBreak {
    pub index: u32,
    pub rule: SplitRule,
}
