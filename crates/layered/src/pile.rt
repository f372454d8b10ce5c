// Every pile of up to four layers, as one type.
ghost use Rattle.std.specs.Prelude.{◌≡◌};
ghost use Rattle.layered.specs.Leaves.{leaf_model};
ghost use Rattle.layered.specs.Piles.{pile_model, piled, leaf_of};

use crate::chosen::{Chosen, Layered};
use crate::leaves::Leaf;
use layer::Over;

pub type Pile = Layered<Layered<Layered<Layered<Leaf>>>>;

// Four fields read no worse than an array, since each goes into a type of its own.
/// The layers of a pile, bottom first.
#[derive(Clone, Copy)]
pub struct Layers {
    pub first: Option<Chosen>,
    pub second: Option<Chosen>,
    pub third: Option<Chosen>,
    pub fourth: Option<Chosen>,
}

/// Puts the layers on a leaf.
pub fn build(leaf: Leaf, layers: Layers) -> Pile
    ensures model { pile_model result ≡ piled layers (leaf_model leaf) }
    ensures leaf { leaf_of result ≡ leaf }
{
    let first = Over::new(layers.first, leaf);
    let second = Over::new(layers.second, first);
    let third = Over::new(layers.third, second);
    Over::new(layers.fourth, third)
}

/// Gives back the leaf.
pub fn into_leaf(pile: Pile) -> Leaf
    ensures { result ≡ leaf_of pile }
{
    pile.into_below().into_below().into_below().into_below()
}
