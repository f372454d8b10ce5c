// The fields of an instruction, as they stand in its eight bytes.
ghost use Rattle.std.specs.Prelude.{◌≡◌};
ghost use Rattle.fields.specs.Fields.{fields_at, bytes_of};
ghost use Rattle.fields.specs.Rows.{admitted};

use crate::rows;
use crate::rows::Limits;

#[derive(Clone, Copy)]
pub struct Fields {
    pub op: u8,
    pub d: u8,
    pub a: u8,
    pub b: u8,
    pub k: u32,
}

impl Fields {
    /// The fields in the eight bytes of an instruction.
    pub fn from_bytes(bytes: [u8; 8]) -> Fields
        ensures { result ≡ fields_at bytes 0 }
    {
        let [op, d, a, b, k0, k1, k2, k3] = bytes;
        let k = u32::from_le_bytes([k0, k1, k2, k3]);
        Fields { op, d, a, b, k }
    }

    /// Whether there is such an op, its fields are within their bounds and the others are zero.
    pub fn admitted(self, limits: Limits) -> bool
        ensures { result ≡ admitted limits self }
    {
        rows::row_of(self.op).is_some_and(|row| {
            row.d.admits(limits, u32::from(self.d))
                && row.a.admits(limits, u32::from(self.a))
                && row.b.admits(limits, u32::from(self.b))
                && row.k.admits(limits, self.k)
        })
    }

    /// The eight bytes of an instruction with these fields.
    pub fn to_bytes(self) -> [u8; 8]
        ensures { result ≡ bytes_of self }
    {
        let [k0, k1, k2, k3] = self.k.to_le_bytes();
        [self.op, self.d, self.a, self.b, k0, k1, k2, k3]
    }
}
