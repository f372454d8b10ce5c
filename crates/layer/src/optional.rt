// A layer, or none.
ghost use Rattle.std.specs.Prelude.{◌≡◌, length, refl};
ghost use Rattle.memory.specs.Description.{free};
ghost use Rattle.memory.specs.Laws.{Lawful};
ghost use Rattle.layer.specs.Optional.{optional, optional_keeps, optional_clears};

use crate::Layer;
use memory::window::Window;
use memory::{Access, Mark, Memory};
use program::refusal::Refusal;

// Each method names both arms: a memory and a layer have methods of different forms, so no one call
// serves both.
/// With no layer, a memory is as it is.
impl<L: Layer> Layer for Option<L> {
    ghost over = { optional L.Layer.over };

    ghost lawful = { λ o d. optional_keeps L.Layer.over (λ d e. Lawful d → Lawful e) (λ _ laws. laws) L.Layer.lawful o d };

    ghost sized = { λ o d. optional_keeps L.Layer.over (λ d e. length e.cells ≡ length d.cells) (λ _. refl) L.Layer.sized o d };

    ghost freed = { λ o d. optional_keeps L.Layer.over (λ d e. free e ≡ free d) (λ _. refl) L.Layer.freed o d };

    ghost counted = { λ o d. optional_keeps L.Layer.over (λ d e. length e.seen ≡ length d.seen) (λ _. refl) L.Layer.counted o d };

    ghost clears = { λ o d. optional_clears L.Layer.over L.Layer.clears o d };

    #[inline(always)]
    fn read<M: Memory>(&self, below: &mut M, table: Window, off: usize) -> Result<u32, Refusal> {
        match self {
            None => below.read(table, off),
            Some(layer) => layer.read(below, table, off),
        }
    }

    #[inline(always)]
    fn write<M: Memory>(
        &self,
        below: &mut M,
        table: Window,
        off: usize,
        word: u32,
    ) -> Result<(), Refusal> {
        match self {
            None => below.write(table, off, word),
            Some(layer) => layer.write(below, table, off, word),
        }
    }

    fn cost<M: Memory>(&self, below: &M, access: Access, len: usize) -> usize {
        match self {
            None => below.cost(access, len),
            Some(layer) => layer.cost(below, access, len),
        }
    }

    fn hides<M: Memory>(&self, below: &M) -> bool {
        match self {
            None => below.hides(),
            Some(layer) => layer.hides(below),
        }
    }

    fn mark<M: Memory>(&self, below: &M, j: usize) -> Option<Mark> {
        match self {
            None => below.mark(j),
            Some(layer) => layer.mark(below, j),
        }
    }
}
