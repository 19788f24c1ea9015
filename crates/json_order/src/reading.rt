ghost use Rattle.std.specs.Prelude.{◌≡◌, ◌+◌, ◌<◌, ◌^◌, List, ℕ, Result, length};
ghost use Rattle.json_order.specs.declared.tree.JsonTree.{JsonTree};
ghost use Rattle.json_order.specs.declared.fault.JsonFault.{JsonFault};
ghost use Rattle.json_order.specs.Answer.{AnswersBy, IsAnswer, IsAnswerFrom};
ghost use Rattle.json_order.specs.inner.Steps.{run, fresh, end_at};

use crate::fault::Stop;
use crate::reader::Reader;
use crate::seed::Seed;
use crate::{JsonEnd, JsonFault, JsonKind, JsonTree};
use std::alloc::Global;

/// How many brackets may be open.
const DEPTH_LIMIT: usize = 128;

/// The UTF-8 byte order mark.
const MARK: [u8; 3] = [0xEF, 0xBB, 0xBF];

/// The tree of a JSON text, or the first fault. A whole byte order mark may stand before the text. Offsets count it.
pub fn read(alloc: Global, text: &[u8]) -> Result<JsonTree, JsonEnd>
    ensures found { AnswersBy (IsAnswer text.now) result }
    // No other answer is right.
    ensures only { (answer : Result JsonTree JsonFault) → IsAnswer text.now answer → AnswersBy (λ given. given ≡ answer) result }
{
    read_behind_mark(alloc, text)
}

fn read_behind_mark(alloc: Global, text: &[u8]) -> Result<JsonTree, JsonEnd>
    ensures { AnswersBy (IsAnswer text.now) result }
{
    if text.starts_with(&MARK) {
        read_from(alloc, 3, &text[3..])
    } else {
        read_from(alloc, 0, text)
    }
}

/// Reads what stands from an offset on.
fn read_from(alloc: Global, start: u64, text: &[u8]) -> Result<JsonTree, JsonEnd>
    requires { start + length text.now < 2 ^ 64 }
    ensures { AnswersBy (IsAnswerFrom start text.now) result }
{
    run(alloc, start, text)
}

fn run(alloc: Global, start: u64, text: &[u8]) -> Result<JsonTree, JsonEnd>
    requires { start + length text.now < 2 ^ 64 }
    ensures { AnswersBy (λ answer. run 128 fresh start text.now ≡ answer) result }
{
    let mut reader = Reader::new(alloc, Seed::of(text));
    for (index, byte) in text.iter().enumerate() {
        let at = start + index as u64;
        if let Err(stop) = reader.step(alloc, at, *byte) {
            return Err(end_at(stop, at, JsonKind::Byte));
        }
        if reader.stack.len() > DEPTH_LIMIT {
            return Err(end_at(Stop::Wrong, at, JsonKind::Depth));
        }
    }
    match reader.finish(alloc) {
        Ok(tree) => Ok(tree),
        Err(stop) => Err(end_at(stop, start + text.len() as u64, JsonKind::End)),
    }
}

fn end_at(stop: Stop, offset: u64, kind: JsonKind) -> JsonEnd
    ensures { result ≡ end_at stop offset kind }
{
    match stop {
        Stop::Wrong => JsonEnd::Fault(JsonFault { offset, kind }),
        Stop::NoMemory => JsonEnd::NoMemory,
    }
}
