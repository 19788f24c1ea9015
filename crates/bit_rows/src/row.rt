//! A row of truth values.

ghost use Rattle.std.specs.Prelude.{◌≡◌, ◌≢◌, ◌-◌, ◌<◌, ◌≤◌, ◌↔◌, ◌++◌, false, true, length, replicate, slice_index_or, slice_set, IfOk, OnOk, OnErr, IsTrue, MatchOption};
ghost use Rattle.std.specs.Bool.{MatchBool};
ghost use Rattle.std.specs.List.{count_by};
ghost use Rattle.std.specs.Simd.Lanes.{zip2};
ghost use Rattle.bit_rows.specs.Places.{union, meet, minus, IsSubset, NoneTrue, IsNext};
ghost use Rattle.bit_rows.specs.Table.{blank};

use crate::bits::{WORD_BITS, bits_below, bits_from, next_word, with_bit};
use crate::combining::combine;
use crate::comparing::{are_zero, first_of_some, is_none};
use crate::counting::count_of_ones;
use crate::operations::{Differ, Meet, Minus, Union, WordOperation};
use pack_util::NoMemory;
use std::alloc::Global;
use std::marker::Model;

/// A row of truth values, its places counted from 0.
#[derive(Drop)]
pub struct BitRow {
    len: u32,
    words: Vec<u64>,
}

impl Model for BitRow {
    ghost use Rattle.std.specs.Prelude.{◌^◌, ◌<◌, Bool, List};
    ghost use Rattle.bit_rows.specs.Packing.{row_of, IsPacked};

    ghost Value = { List Bool };

    ghost view = { λ row. row_of row.len row.words.items };

    ghost invariant = { λ row. (row.len < 2 ^ 32)
        × IsPacked row.words.items (row_of row.len row.words.items) };
}

impl BitRow {
    /// A row with no true place.
    pub fn new(alloc: Global, len: u32) -> Result<BitRow, NoMemory>
        ensures { IfOk result (λ row. row ≡ blank len) }
    {
        let words = vec![in alloc; 0u64; len.div_ceil(WORD_BITS) as usize]?;
        Ok(BitRow { len, words })
    }

    /// A row with every place true.
    pub fn full(alloc: Global, len: u32) -> Result<BitRow, NoMemory>
        ensures { IfOk result (λ row. row ≡ replicate len true) }
    {
        if len == 0 {
            return BitRow::new(alloc, 0);
        }
        let last = (len - 1) / WORD_BITS;
        let mut words = vec![in alloc; u64::MAX; last as usize + 1]?;
        words[last as usize] = bits_below(len - WORD_BITS * last);
        Ok(BitRow { len, words })
    }

    /// Adds places that are not true, up to the new length.
    pub fn grow(&mut self, _alloc: Global, len: u32) -> Result<(), NoMemory>
        requires { length self.old ≤ len }
        ensures ok { OnOk result (self.new ≡ self.old ++ blank (len - length self.old)) }
        ensures err { OnErr result (self.new ≡ self.old) }
    {
        self.words.resize(len.div_ceil(WORD_BITS) as usize, 0)?;
        self.len = len;
        Ok(())
    }

    pub fn len(&self) -> u32
        ensures { result ≡ length self.now }
    {
        self.len
    }

    pub fn get(&self, at: u32) -> bool
        requires { at < length self.now }
        ensures { result ≡ slice_index_or self.now at false }
    {
        let word = self.words[(at / WORD_BITS) as usize];
        (word >> (at % WORD_BITS)) & 1 == 1
    }

    pub fn set(&mut self, at: u32, to: bool)
        requires { at < length self.old }
        ensures { self.new ≡ slice_set self.old at to }
    {
        let k = (at / WORD_BITS) as usize;
        self.words[k] = with_bit(self.words[k], at % WORD_BITS, to);
    }

    /// Makes this row the same as the other.
    pub fn copy_from(&mut self, other: &BitRow)
        requires { length self.old ≡ length other.now }
        ensures { self.new ≡ other.now }
    {
        self.words.copy_from_slice(&other.words);
    }

    /// Adds the true places of the other row, and says whether that changed this one.
    pub fn union_with(&mut self, other: &BitRow) -> bool
        requires { length self.old ≡ length other.now }
        ensures row { self.new ≡ union self.old other.now }
        ensures len { length self.new ≡ length self.old }
        ensures changed { MatchBool result (self.new ≢ self.old) (self.new ≡ self.old) }
    {
        self.combine_with::<Union>(other)
    }

    /// Keeps the places that are true in the other row too, and says whether that changed this one.
    pub fn meet_with(&mut self, other: &BitRow) -> bool
        requires { length self.old ≡ length other.now }
        ensures row { self.new ≡ meet self.old other.now }
        ensures len { length self.new ≡ length self.old }
        ensures changed { MatchBool result (self.new ≢ self.old) (self.new ≡ self.old) }
    {
        self.combine_with::<Meet>(other)
    }

    /// Takes away the true places of the other row, and says whether that changed this one.
    pub fn minus(&mut self, other: &BitRow) -> bool
        requires { length self.old ≡ length other.now }
        ensures row { self.new ≡ minus self.old other.now }
        ensures len { length self.new ≡ length self.old }
        ensures changed { MatchBool result (self.new ≢ self.old) (self.new ≡ self.old) }
    {
        self.combine_with::<Minus>(other)
    }

    fn combine_with<O: WordOperation>(&mut self, other: &BitRow) -> bool
        requires { length self.old ≡ length other.now }
        ensures row { self.new ≡ zip2 O.bit self.old other.now }
        ensures len { length self.new ≡ length self.old }
        ensures changed { MatchBool result (self.new ≢ self.old) (self.new ≡ self.old) }
    {
        combine::<O>(&mut self.words, &other.words)
    }

    /// Whether each true place of this row is a true place of the other, whatever the lengths.
    pub fn is_subset(&self, other: &BitRow) -> bool
        ensures { IsTrue result ↔ IsSubset self.now other.now }
    {
        let words = self.words.as_slice();
        let others = other.words.as_slice();
        let shared = words.len().min(others.len());
        is_none::<Minus>(&words[..shared], &others[..shared]) && are_zero(&words[shared..])
    }

    /// Whether the two rows have one length and the same true places.
    pub fn same(&self, other: &BitRow) -> bool
        ensures { IsTrue result ↔ (self.now ≡ other.now) }
    {
        self.len == other.len && is_none::<Differ>(&self.words, &other.words)
    }

    /// How many places are true.
    pub fn count(&self) -> u32
        ensures { result ≡ count_by (λ place. place) self.now }
    {
        count_of_ones(&self.words) as u32
    }

    /// The least true place that is not below `at`.
    pub fn next_from(&self, at: u32) -> Option<u32>
        ensures { MatchOption result (NoneTrue self.now at (length self.now)) (IsNext self.now at) }
    {
        if at >= self.len {
            return None;
        }
        let own = (at / WORD_BITS) as usize;
        let rest = bits_from(self.words[own], at % WORD_BITS);
        if rest != 0 {
            return Some(WORD_BITS * own as u32 + rest.trailing_zeros());
        }
        let k = next_word(&self.words, own + 1)?;
        Some(WORD_BITS * k as u32 + self.words[k].trailing_zeros())
    }

    /// The least place that is true in both rows.
    pub fn first_common(&self, other: &BitRow) -> Option<u32>
        requires { length self.now ≡ length other.now }
        ensures { MatchOption result (NoneTrue (meet self.now other.now) 0 (length self.now))
            (IsNext (meet self.now other.now) 0) }
    {
        let k = first_of_some::<Meet>(&self.words, &other.words)?;
        let common = self.words[k] & other.words[k];
        Some(WORD_BITS * k as u32 + common.trailing_zeros())
    }
}
