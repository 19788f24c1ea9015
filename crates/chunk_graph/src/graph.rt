ghost use Rattle.std.specs.Prelude.{◌≡◌, ◌<◌, ◌≤◌, ◌⊎◌, Some, None, length, slice_index_or, false, IfOk, IfErr, OnOk, OnErr, MatchOption};
ghost use Rattle.bit_rows.specs.Table.{Table};
ghost use Rattle.chunk_graph.specs.Chunks.{State, IsSound, chunk_at, group_at};
ghost use Rattle.chunk_graph.specs.Moves.{started, with_new, connected, with_moved, with_closed, with_spent, merged, without_empty, id_of};
ghost use Rattle.chunk_graph.specs.declared.end.ChunkEnd.TheVariants.{Limit, NoMemory};

use crate::ChunkEnd;
use crate::chunk::Chunk;
use crate::chunk_list::ChunkList;
use crate::emptying::{leave_out_empty, remove_empty};
use crate::merging::{all_merged_into, merged_lists, remove_merged};
use crate::moving::move_all;
use crate::starting::{first_chunks, first_lists};
use bit_rows::{BitRow, BitTable};
use pack_util::{ChunkNo, GroupNo, Text};
use std::alloc::{AllocError, Global};
use std::marker::Model;

/// How many numbers of chunks may be given out.
pub const MOST_CHUNKS: u32 = 8192;

/// How many cache groups there may be.
pub const MOST_CACHE_GROUPS: usize = 16;

/// Chunks, and the chunks of each group.
#[derive(Drop)]
pub struct ChunkGraph {
    width: u32,
    chunks: Vec<Chunk>,
    groups: Vec<ChunkList>,
    entries: u32,
    spent: [bool; MOST_CACHE_GROUPS],
}

impl Model for ChunkGraph {
    ghost use Rattle.chunk_graph.specs.Chunks.{State, IsSound};

    ghost Value = { State };

    ghost view = { λ graph. record {
      width = graph.width;
      chunks = graph.chunks.items;
      groups = graph.groups.items;
      entries = graph.entries;
      spent = graph.spent;
    } };

    ghost invariant = { λ graph. IsSound (record {
      width = graph.width;
      chunks = graph.chunks.items;
      groups = graph.groups.items;
      entries = graph.entries;
      spent = graph.spent;
    }) };
}

impl ChunkGraph {
    /// One chunk for each group, with the modules of the group's row and the group's name. The groups of entries are
    /// first.
    pub fn start(
        alloc: Global,
        placed: &BitTable,
        entries: u32,
        names: &[Option<Text>],
    ) -> Result<ChunkGraph, AllocError>
        requires few { length placed.now.rows ≤ 4096 }
        requires names { length names.now ≡ length placed.now.rows }
        requires entries { entries ≤ length placed.now.rows }
        ensures { IfOk result (λ graph. graph ≡ started placed.now entries names.now) }
    {
        Ok(ChunkGraph {
            width: placed.width(),
            chunks: first_chunks(alloc, placed, entries, names)?,
            groups: first_lists(alloc, placed.rows())?,
            entries,
            spent: [false; MOST_CACHE_GROUPS],
        })
    }

    /// Each unnamed chunk of no entry that has the modules of an earlier such chunk goes, and the earliest of these
    /// stands in its place in each of its groups, once.
    pub fn merge_equal(&mut self, alloc: Global) -> Result<(), AllocError>
        ensures ok { OnOk result (self.new ≡ merged self.old) }
        ensures err { OnErr result (self.new ≡ self.old) }
    {
        let into = all_merged_into(alloc, &self.chunks)?;
        let groups = merged_lists(alloc, &self.groups, &self.chunks, &into)?;
        remove_merged(&mut self.chunks, &into);
        self.groups = groups;
        Ok(())
    }

    /// Chunks of no entry without modules go from all groups. Takes no memory.
    pub fn drop_empty(&mut self)
        ensures { self.new ≡ without_empty self.old }
    {
        leave_out_empty(&mut self.groups, &self.chunks);
        remove_empty(&mut self.chunks);
    }

    /// Adds a chunk without modules, which is in no group.
    pub fn new_chunk(&mut self, alloc: Global, name: Option<Text>) -> Result<ChunkNo, ChunkEnd>
        ensures ok { IfOk result (λ c. (c.0 ≡ length self.old.chunks) × (self.new ≡ with_new name self.old)) }
        ensures err { IfErr result (λ e. (e ≡ NoMemory) ⊎ ((e ≡ Limit) × (length self.old.chunks ≡ 8192))) }
        ensures same { OnErr result (self.new ≡ self.old) }
    {
        let number = self.chunks.len() as u32;
        if number == MOST_CHUNKS {
            return Err(ChunkEnd::Limit);
        }
        self.chunks.push(Chunk {
            entry: false,
            name,
            mods: BitRow::new(alloc, self.width)?,
            gone: false,
            closed: false,
        })?;
        Ok(ChunkNo(number))
    }

    /// Adds the chunk at the end of the group, unless it is there.
    pub fn connect(&mut self, g: GroupNo, c: ChunkNo) -> Result<(), AllocError>
        requires group { g.0 < length self.old.groups }
        requires chunk { c.0 < length self.old.chunks }
        requires there { (chunk_at self.old c.0).gone ≡ false }
        ensures ok { OnOk result (self.new ≡ connected g.0 c.0 self.old) }
        ensures err { OnErr result (self.new ≡ self.old) }
    {
        let group = &mut self.groups[g.0 as usize];
        group.join(c)?;
        Ok(())
    }

    /// The modules leave the chunks `from` other than `to`, and are in `to`. Takes no memory.
    pub fn move_modules(&mut self, modules: &BitRow, from: &BitRow, to: ChunkNo)
        requires modules { length modules.now ≡ self.old.width }
        requires from { length from.now ≡ length self.old.chunks }
        requires to { to.0 < length self.old.chunks }
        ensures { self.new ≡ with_moved modules.now from.now to.0 self.old }
    {
        move_all(&mut self.chunks, modules, from, to.0);
    }

    /// The numbers of chunks that are given out, chunks that are gone included.
    pub fn count(&self) -> u32
        ensures count { result ≡ length self.now.chunks }
        ensures sound { IsSound self.now }
    {
        self.chunks.len() as u32
    }

    pub fn group_count(&self) -> u32
        ensures { result ≡ length self.now.groups }
    {
        self.groups.len() as u32
    }

    /// The groups with numbers below it are those of the entries.
    pub fn entry_count(&self) -> u32
        ensures { result ≡ self.now.entries }
    {
        self.entries
    }

    pub fn mods(&self, c: ChunkNo) -> &BitRow
        requires { c.0 < length self.now.chunks }
        ensures mods { result.now ≡ (chunk_at self.now c.0).mods }
        ensures len { length result.now ≡ self.now.width }
    {
        &self.chunks[c.0 as usize].mods
    }

    pub fn chunks(&self, g: GroupNo) -> &[ChunkNo]
        requires { g.0 < length self.now.groups }
        ensures { result.now ≡ group_at self.now g.0 }
    {
        self.groups[g.0 as usize].as_slice()
    }

    pub fn is_closed(&self, c: ChunkNo) -> bool
        requires { c.0 < length self.now.chunks }
        ensures { result ≡ (chunk_at self.now c.0).closed }
    {
        self.chunks[c.0 as usize].closed
    }

    pub fn is_gone(&self, c: ChunkNo) -> bool
        requires { c.0 < length self.now.chunks }
        ensures { result ≡ (chunk_at self.now c.0).gone }
    {
        self.chunks[c.0 as usize].gone
    }

    /// Whether the group of an entry started with the chunk.
    pub fn is_entry(&self, c: ChunkNo) -> bool
        requires { c.0 < length self.now.chunks }
        ensures { result ≡ (chunk_at self.now c.0).entry }
    {
        self.chunks[c.0 as usize].entry
    }

    pub fn name(&self, c: ChunkNo) -> Option<&str>
        requires { c.0 < length self.now.chunks }
        ensures { MatchOption result ((chunk_at self.now c.0).name ≡ None) (λ name. (chunk_at self.now c.0).name ≡ Some name.now) }
    {
        match &self.chunks[c.0 as usize].name {
            Some(name) => Some(name.get()),
            None => None,
        }
    }

    /// How many chunks before this one aren't gone, where it isn't gone itself.
    pub fn id(&self, c: ChunkNo) -> Option<u32>
        requires { c.0 < length self.now.chunks }
        ensures { result ≡ id_of self.now c.0 }
    {
        let place = c.0 as usize;
        if self.chunks[place].gone {
            return None;
        }
        let before = &self.chunks[..place];
        Some(before.iter().filter(|chunk| !chunk.gone).count() as u32)
    }

    pub fn is_spent(&self, cache_group: u32) -> bool
        requires { cache_group < 16 }
        ensures { result ≡ slice_index_or self.now.spent cache_group false }
    {
        self.spent[cache_group as usize]
    }

    pub fn close_chunk(&mut self, c: ChunkNo)
        requires { c.0 < length self.old.chunks }
        ensures { self.new ≡ with_closed c.0 self.old }
    {
        let chunk = &mut self.chunks[c.0 as usize];
        chunk.closed = true;
    }

    pub fn spend(&mut self, cache_group: u32)
        requires { cache_group < 16 }
        ensures { self.new ≡ with_spent cache_group self.old }
    {
        self.spent[cache_group as usize] = true;
    }
}
