//! Tables: a line is what is given, a tab and the answer.

use std::alloc::{AllocError, Global};

fn add_row(table: &mut String, given: &str, answer: &str) -> Result<(), AllocError> {
    write!(table, "{given}\t{answer}\n")
}

/// The table with the answers that a call gives in the place of its own.
pub(crate) fn answered<F>(alloc: Global, table: &str, answer: F) -> Result<String, AllocError>
where
    F: Fn(Global, &str) -> Result<String, AllocError>,
    requires { F.IsAlwaysCallable answer }
{
    let mut answers = String::new(alloc);
    for line in table.lines() {
        let given = line.split_once('\t').unwrap_or((line, "")).0;
        add_row(&mut answers, given, answer(alloc, given)?.as_str())?;
    }
    Ok(answers)
}
