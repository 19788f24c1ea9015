//! A table of rows of one length.

ghost use Rattle.std.specs.Prelude.{◌≡◌, ◌-◌, ◌<◌, ◌≤◌, ◌++◌, [], length, replicate, take, slice_index_or, slice_set, IfOk, OnOk, OnErr};
ghost use Rattle.bit_rows.specs.Table.{Table, IsEven, blank};

use crate::row::BitRow;
use pack_util::NoMemory;
use std::alloc::Global;
use std::marker::Model;
use std::mem;

/// Rows of one length.
#[derive(Drop)]
pub struct BitTable {
    width: u32,
    rows: Vec<BitRow>,
}

impl Model for BitTable {
    ghost use Rattle.std.specs.Prelude.{◌^◌, ◌<◌, length};
    ghost use Rattle.bit_rows.specs.Table.{Table, IsEven};

    ghost Value = { Table };

    ghost view = { λ table. record { width = table.width; rows = table.rows.items } };

    ghost invariant = { λ table. (length table.rows.items < 2 ^ 32)
        × IsEven (record { width = table.width; rows = table.rows.items }) };
}

impl BitTable {
    /// Rows with no true place.
    pub fn new(alloc: Global, rows: u32, len: u32) -> Result<BitTable, NoMemory>
        ensures { IfOk result
            (λ table. table ≡ record { width = len; rows = replicate rows (blank len) }) }
    {
        let mut table = BitTable {
            width: len,
            rows: Vec::new(alloc),
        };
        table.grow(alloc, rows)?;
        Ok(table)
    }

    /// The length of each row.
    pub fn width(&self) -> u32
        ensures { result ≡ self.now.width }
    {
        self.width
    }

    pub fn rows(&self) -> u32
        ensures rows { result ≡ length self.now.rows }
        ensures even { IsEven self.now }
    {
        self.rows.len() as u32
    }

    pub fn row(&self, at: u32) -> &BitRow
        requires { at < length self.now.rows }
        ensures row { result.now ≡ slice_index_or self.now.rows at [] }
        ensures len { length result.now ≡ self.now.width }
    {
        &self.rows[at as usize]
    }

    /// The two rows change places.
    pub fn swap_row(&mut self, at: u32, row: &mut BitRow)
        requires in_range { at < length self.old.rows }
        requires len { length row.old ≡ self.old.width }
        ensures table { self.new ≡ record self.old { rows = slice_set self.old.rows at row.old } }
        ensures row { row.new ≡ slice_index_or self.old.rows at [] }
        ensures len { length row.new ≡ length row.old }
    {
        let own = &mut self.rows[at as usize];
        mem::swap(own, row);
    }

    /// Adds rows with no true place, up to the new number of rows.
    pub fn grow(&mut self, alloc: Global, rows: u32) -> Result<(), NoMemory>
        requires { length self.old.rows ≤ rows }
        ensures ok { OnOk result (self.new
            ≡ record self.old { rows = self.old.rows ++ replicate (rows - length self.old.rows) (blank self.old.width) }) }
        ensures err { OnErr result (self.new ≡ self.old) }
    {
        let before = self.rows.len();
        let result = add_blank(alloc, &mut self.rows, self.width, rows as usize);
        if result.is_err() {
            self.rows.truncate(before);
        }
        result
    }
}

/// Adds blank rows until there are `count`. Where memory runs out, some may have been added.
fn add_blank(
    alloc: Global,
    rows: &mut Vec<BitRow>,
    width: u32,
    count: usize,
) -> Result<(), NoMemory>
    requires { length rows.old.items ≤ count }
    ensures ok { OnOk result
        (rows.new.items ≡ rows.old.items ++ replicate (count - length rows.old.items) (blank width)) }
    ensures err { OnErr result (take (length rows.old.items) rows.new.items ≡ rows.old.items) }
{
    for _ in rows.len()..count {
        rows.push(BitRow::new(alloc, width)?)?;
    }
    Ok(())
}
