// The arguments, word by word.
ghost use Rattle.std.specs.Prelude.{◌≡◌, Bool, true, false, not, ◌&&◌, ◌||◌, None, Some, Err, [], ◌∷◌, ◌++◌, is_some, is_ok, nat_lt, if◌then◌else◌, string_bytes, codes, alloc_error, MatchResult};
ghost use Rattle.std.specs.Vec.{vec_len};
ghost use Rattle.arguments.specs.Asked.{says, is_input, is_dash, flaw, flaw_of};
ghost use Rattle.arguments.specs.declared.argument_error.ArgumentError.TheVariants.{SecondTarget, OutOfMemory};

use crate::argument_error::ArgumentError;
use std::alloc::Global;

/// What is asked for.
#[derive(Drop)]
pub struct Arguments {
    /// Where the converted image goes, if it is asked for.
    pub target: Option<String>,
    /// Whether the memory that it is converted for hides.
    pub hides: bool,
    pub runs: bool,
    /// The words on what a run starts from.
    pub inputs: Vec<String>,
    /// The word `convert` came, and the next word is where the image goes.
    pub awaits: bool,
}

impl Arguments {
    /// Nothing is asked for yet.
    pub fn new(heap: Global) -> Arguments
        ensures target { result.target ≡ None }
        ensures hides { result.hides ≡ false }
        ensures runs { result.runs ≡ false }
        ensures inputs { result.inputs.items ≡ [] }
        ensures awaits { result.awaits ≡ false }
    {
        Arguments {
            target: None,
            hides: false,
            runs: false,
            inputs: Vec::new(heap),
            awaits: false,
        }
    }

    /// Takes the next word.
    pub fn take(&mut self, word: String) -> Result<(), ArgumentError>
        ensures target { self.new.target ≡ (if self.old.awaits then Some word else self.old.target) }
        ensures hides { self.new.hides ≡ (self.old.hides || says self.old.awaits (string_bytes word) (codes "hides")) }
        ensures runs { self.new.runs ≡ (self.old.runs || says self.old.awaits (string_bytes word) (codes "run")) }
        ensures inputs { self.new.inputs.items ≡ (if is_ok result && is_input self.old.awaits (string_bytes word) then self.old.inputs.items ++ word ∷ [] else self.old.inputs.items) }
        ensures awaits { self.new.awaits ≡ (says self.old.awaits (string_bytes word) (codes "convert") && not (is_some self.old.target)) }
        ensures second { says self.old.awaits (string_bytes word) (codes "convert") ≡ true → is_some self.old.target ≡ true → result ≡ Err SecondTarget }
        ensures full { is_input self.old.awaits (string_bytes word) ≡ true → MatchResult result (λ taken. Unit {0}) (λ e. e ≡ OutOfMemory alloc_error) }
        ensures accepted { is_input self.old.awaits (string_bytes word) ≡ false → (says self.old.awaits (string_bytes word) (codes "convert") && is_some self.old.target) ≡ false → is_ok result ≡ true }
    {
        if self.awaits {
            self.awaits = false;
            self.target = Some(word);
            return Ok(());
        }
        match word.as_str() {
            "convert" => {
                if self.target.is_some() {
                    return Err(ArgumentError::SecondTarget);
                }
                self.awaits = true;
            }
            "hides" => self.hides = true,
            "run" => self.runs = true,
            _ => self.inputs.push(word)?,
        }
        Ok(())
    }
}

// Those that are asked of whole arguments.
impl Arguments {
    /// Whether the image goes to standard output, and then nothing else.
    pub fn goes_to_standard_output(&self) -> bool
        ensures { result ≡ is_dash self.now.target }
    {
        match &self.target {
            Some(target) => target.as_str() == "-",
            None => false,
        }
    }

    /// Whether a run is asked for: by its word, or by what it starts from.
    pub fn asks_for_run(&self) -> bool
        ensures { result ≡ (self.now.runs || nat_lt 0 (vec_len self.now.inputs)) }
    {
        self.runs || !self.inputs.is_empty()
    }

    /// Whether the words make sense together, with none to come.
    pub fn check(&self) -> Result<(), ArgumentError>
        ensures { flaw_of result ≡ flaw self.now.awaits (is_some self.now.target) self.now.hides (is_dash self.now.target) (self.now.runs || nat_lt 0 (vec_len self.now.inputs)) }
    {
        if self.awaits {
            return Err(ArgumentError::NoTarget);
        }
        if self.hides && self.target.is_none() {
            return Err(ArgumentError::HidesNothing);
        }
        if self.goes_to_standard_output() && self.asks_for_run() {
            return Err(ArgumentError::RunUnseen);
        }
        Ok(())
    }
}
