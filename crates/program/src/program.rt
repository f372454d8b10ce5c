// A program, with what every program keeps.
ghost use Rattle.std.specs.Prelude.{◌≡◌, ℕ, ◌<◌, ◌≤◌, true, false, [], length, take, is_some, nat_lt, slice_index_or};
ghost use Rattle.instructions.specs.declared.Instruction.TheVariants.{Again};
ghost use Rattle.program.specs.Headers.{registers_of, longest, no_table, table_fits, cells_of};
ghost use Rattle.program.specs.Bounds.{bound};
ghost use Rattle.program.specs.Pairing.{pairing};
ghost use Rattle.program.specs.Sound.{SoundHeader, SoundList};

use crate::header::Header;
use instructions::Instruction;

// The list is the caller's, and so is what stands in it behind the instructions: the header has their number.
/// A program: a header, and a list whose first `count` entries are the instructions. The list is
/// the one that was handed in; what stands behind the instructions stays as it was.
#[derive(Drop)]
pub struct Program {
    header: Header,
    list: Vec<Instruction>,
    ghost eight: { length header.tables ≡ 8 },
    ghost few: { header.used ≤ 8 },
    ghost tables: { (i : ℕ) → i < 8 → table_fits (slice_index_or header.tables i no_table) (nat_lt i header.used) ≡ true },
    ghost cells: { cells_of header.tables ≤ 4096 },
    ghost short: { header.count ≤ longest header.kind },
    ghost narrow: { header.secret_entry < 65536 },
    ghost room: { header.count ≤ length list.items },
    ghost bounds: { (p : ℕ) → p < header.count → bound (registers_of header.kind) header.used (slice_index_or list.items p Again) ≡ true },
    ghost pairs: { is_some (pairing [] 0 (take header.count list.items)) ≡ false },
}

impl Program {
    /// A header and the list whose first entries are its instructions.
    pub fn new(header: Header, list: Vec<Instruction>) -> Program
        requires header { SoundHeader header }
        requires list { SoundList header list.items }
        ensures header { result.header ≡ header }
        ensures list { result.list ≡ list }
    {
        Program { header, list }
    }

    pub fn header(&self) -> Header
        ensures { result ≡ self.now.header }
    {
        self.header
    }

    /// The instructions.
    pub fn code(&self) -> &[Instruction]
        ensures { result.now ≡ take self.now.header.count self.now.list.items }
    {
        &self.list[..usize::from(self.header.count)]
    }

    /// Gives the list back, with the instructions in front.
    pub fn into_list(self) -> Vec<Instruction>
        ensures { result ≡ self.list }
    {
        let Program { header: _, list } = self;
        list
    }
}
