ghost use Rattle.std.specs.Prelude.{IsTrue};
ghost use Rattle.std.specs.List.{list_all};
ghost use Rattle.graph_types.specs.Parts.{is_part};

use crate::Part;
use pack_util::Seq;

/// What the name of an asset is made of. A hash has 1 to 64 digits.
#[derive(PartialEq, Eq, Drop)]
pub struct Template {
    pub parts: Seq<Part>,
    pub ghost in_range: { IsTrue (list_all is_part parts) },
}
