use bit_rows::BitRow;
use pack_util::NoMemory;

/// Adds the places of a row that are true.
pub fn show_row(line: &mut String, row: &BitRow) -> Result<(), NoMemory> {
    for m in 0..row.len() {
        if row.get(m) {
            write!(line, " {m}")?;
        }
    }
    Ok(())
}
