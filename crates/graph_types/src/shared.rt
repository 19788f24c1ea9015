//! What threads share may be sent to any of them and read by all at once.

use crate::{Config, Groups, ModRecord, ModuleGraph, Template};
use pack_util::is_shared;

fn are_shared(
    record: &ModRecord,
    graph: &ModuleGraph,
    groups: &Groups,
    template: &Template,
    config: &Config,
) {
    is_shared(record);
    is_shared(graph);
    is_shared(groups);
    is_shared(template);
    is_shared(config);
}
