//! What holds of the definitions: calls that do nothing and whose clauses are the laws.
ghost use Rattle.std.specs.Prelude.{◌≡◌};
ghost use Rattle.module_build.specs.Readings.{AreReadings, Readings};

use json_order::laws::{each_text_has_an_answer, one_answer};
use resolve_path::laws::one_reading;

/// There is a right reading of texts and no other, so that a file has one record.
pub fn one_record()
    ensures some { (readings : Readings) × AreReadings readings }
    ensures only { (one other : Readings) → AreReadings one → AreReadings other → one ≡ other }
{
    each_text_has_an_answer();
    one_answer();
    one_reading();
}
