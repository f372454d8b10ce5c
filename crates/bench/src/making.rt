// Benches made over a memory, which is lent and given back.
ghost use Rattle.std.specs.Prelude.{◌≡◌, IfOk};
ghost use Rattle.calls.specs.Benches.{new};
ghost use Rattle.bench.specs.Views.{view};

use crate::bench::Bench;
use crate::lists::Lists;
use memory::Memory;
use std::alloc::{AllocError, Global};

impl<M: Memory + Drop> Bench<M> {
    /// A bench over a memory, whose seen list it empties. What it takes from the heap it takes here,
    /// and no call takes more.
    pub fn new(heap: Global, mut memory: M) -> Result<Bench<M>, AllocError>
        ensures { IfOk result (λ b. view M.model b ≡ new (M.model memory)) }
    {
        let lists = Lists::new(heap)?;
        memory.clear();
        Ok(Bench {
            memory,
            lists,
            program: None,
            entry: [0; 16],
            last: None,
        })
    }
}

impl<M: Memory> Bench<M> {
    /// Lends the memory, to read what was seen of it.
    pub fn memory(&self) -> &M
        ensures { M.model result.now ≡ (view M.model self.now).memory }
    {
        &self.memory
    }

    /// Gives the memory back.
    pub fn into_memory(self) -> M
        ensures { M.model result ≡ (view M.model self).memory }
    {
        let Bench {
            memory,
            lists: _,
            program: _,
            entry: _,
            last: _,
        } = self;
        memory
    }
}
