//! The chunks that one group loads.
ghost use Rattle.std.specs.Prelude.{◌≡◌, [], ◌∷◌, IfOk, OnOk, OnErr};
ghost use Rattle.chunk_graph.specs.Chunks.{has};
ghost use Rattle.chunk_graph.specs.Moves.{joined, needed};

use crate::chunk::Chunk;
use crate::emptying::is_needed;
use pack_util::{ChunkNo, NoMemory};
use std::alloc::Global;
use std::marker::Model;

/// Chunks in the order in which a group came to have them.
#[derive(Drop)]
pub struct ChunkList {
    chunks: Vec<ChunkNo>,
}

impl Model for ChunkList {
    ghost use Rattle.std.specs.Prelude.{List};
    ghost use Rattle.pack_util.specs.declared.number.ChunkNo.{ChunkNo};

    ghost Value = { List ChunkNo };

    ghost view = { λ list. list.chunks.items };
}

impl ChunkList {
    pub fn new(alloc: Global) -> ChunkList
        ensures { result ≡ [] }
    {
        ChunkList {
            chunks: Vec::new(alloc),
        }
    }

    /// The list of one chunk.
    pub fn of_one(alloc: Global, chunk: ChunkNo) -> Result<ChunkList, NoMemory>
        ensures { IfOk result (λ list. list ≡ chunk ∷ []) }
    {
        let mut chunks = Vec::new(alloc);
        chunks.push(chunk)?;
        Ok(ChunkList { chunks })
    }

    pub fn as_slice(&self) -> &[ChunkNo]
        ensures { result.now ≡ self.now }
    {
        &self.chunks
    }

    /// Adds the chunk at the end, unless it is there.
    pub fn join(&mut self, chunk: ChunkNo) -> Result<(), NoMemory>
        ensures ok { OnOk result (self.new ≡ joined chunk.0 self.old) }
        ensures err { OnErr result (self.new ≡ self.old) }
    {
        if !has(&self.chunks, chunk) {
            self.chunks.push(chunk)?;
        }
        Ok(())
    }

    /// Keeps the chunks that aren't empty. Takes no memory.
    pub fn leave_out_empty(&mut self, chunks: &[Chunk])
        ensures { self.new ≡ needed chunks.now self.old }
    {
        self.chunks.retain(|chunk| is_needed(chunks, *chunk));
    }
}

/// Whether the chunk stands in the list.
pub fn has(list: &[ChunkNo], chunk: ChunkNo) -> bool
    ensures { result ≡ has chunk.0 list.now }
{
    list.iter().any(|other| other.0 == chunk.0)
}
