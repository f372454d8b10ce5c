// Piles by their names, bottom first: `flat:SIZE:LIST` or `banked:1024:LIST`, and then for each layer
// `+scan` or `+lineEXPONENT`.
ghost use Rattle.std.specs.Prelude.{◌≤◌, Some, IfSome, IfOk};
ghost use Rattle.makes.specs.Begun.{Begun};
ghost use Rattle.makes.specs.Wording.{unnamed_text};

use crate::built;
use crate::make::{LeafKind, MOST, Make};
use crate::words::{WordsError, words};
use layered::chosen::Chosen;
use layered::pile::{Layers, Pile};
use std::alloc::Global;
use std::error::Error;
use std::fmt;
use std::str::{FromStr, Split};

/// Why there is no make for a name.
#[derive(Clone, Copy, Debug, PartialEq, Eq)]
pub enum Unnamed {
    Unreadable,
    TooManyLayers,
}

impl fmt::Display for Unnamed {
    ghost output = { λ why. Some (unnamed_text why) };

    fn fmt<W: fmt::Write>(&self, f: &mut fmt::Formatter<W>) -> fmt::Result {
        f.write_str(match self {
            Unnamed::Unreadable => "a memory that cannot be read",
            Unnamed::TooManyLayers => "a pile of more than four layers",
        })
    }
}

impl Error for Unnamed {}

// A number that a list may have as its length.
fn length(text: &str) -> Option<usize>
    ensures { IfSome result (λ n. n ≤ 1000000) }
{
    text.parse::<usize>().ok().filter(|length| *length <= MOST)
}

fn layer(text: &str) -> Option<Chosen> {
    if text == "scan" {
        return Some(Chosen::Scan);
    }
    let exponent = text.strip_prefix("line")?.parse::<usize>().ok()?;
    Some(Chosen::Line {
        exponent: exponent.min(6) as u32,
    })
}

// The next layer, if a name is left.
fn next(names: &mut Split<char>) -> Result<Option<Chosen>, Unnamed> {
    names
        .next()
        .map(|name| layer(name).ok_or(Unnamed::Unreadable))
        .transpose()
}

fn layers(mut names: Split<char>) -> Result<Layers, Unnamed> {
    let layers = Layers {
        first: next(&mut names)?,
        second: next(&mut names)?,
        third: next(&mut names)?,
        fourth: next(&mut names)?,
    };
    match names.next() {
        None => Ok(layers),
        Some(_) => Err(Unnamed::TooManyLayers),
    }
}

fn leaf(name: &str, layers: Layers) -> Option<Make> {
    let (kind, lengths) = name.split_once(':')?;
    let (size, list) = lengths.split_once(':')?;
    let kind = match (kind, size) {
        ("flat", _) => LeafKind::Flat,
        ("banked", "1024") => LeafKind::Banked,
        _ => return None,
    };
    Some(Make {
        kind,
        size: length(size)?,
        list: length(list)?,
        layers,
    })
}

/// The make of a name. Lengths above 1,000,000 cannot be read.
impl FromStr for Make {
    type Err = Unnamed;

    fn from_str(name: &str) -> Result<Make, Unnamed> {
        let mut names = name.split('+');
        let bottom = names.next().ok_or(Unnamed::Unreadable)?;
        let layers = layers(names)?;
        leaf(bottom, layers).ok_or(Unnamed::Unreadable)
    }
}

// Whether a memory of this make may begin with so many words.
fn takes(make: Make, words: usize) -> bool {
    match make.kind {
        LeafKind::Flat => words <= make.size,
        LeafKind::Banked => words == 0,
    }
}

/// The pile of a make, beginning with the words of a text.
pub fn pile(heap: Global, make: Make, cells: &str) -> Result<Pile, WordsError>
    ensures { IfOk result (Begun make) }
{
    let words = words(heap, cells)?;
    if !takes(make, words.len()) {
        return Err(WordsError::Unreadable);
    }
    Ok(built::build(heap, make, words)?)
}
