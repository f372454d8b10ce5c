// From bytes to a header.
ghost use Rattle.std.specs.Prelude.{◌≡◌, ◌+◌, ◌*◌, ◌≤◌, length, take, drop, IfOk, if◌then◌else◌, Some, None};
ghost use Rattle.std.specs.Simd.{first_chunks};
ghost use Rattle.program.specs.Headers.{table_fits};
ghost use Rattle.program.specs.Firsts.{all_below};
ghost use Rattle.program.specs.Refusals.{refused_by};
ghost use Rattle.header.specs.Layout.{table_of, entry_fits, tables_at, header_at, entry_good, zero_from40, header_good, header_refusal};

use program::header::{Header, Kind, Table};
use program::refusal::{Reason, Refusal};

const MOST_TABLES: u8 = 8;

const MOST_CELLS: u32 = 4096;

// A table that is used has 1 to 1,024 cells; an entry that is not used is empty.
fn fits(table: Table, used: bool) -> bool
    ensures { result ≡ table_fits table used }
{
    if used {
        (1..=1024).contains(&table.length)
    } else {
        table.length == 0 && !table.secret
    }
}

// The table of an entry, if the entry is good.
fn table(entry: [u8; 4], used: bool) -> Option<Table>
    ensures { result ≡ (if entry_fits entry used then Some (table_of entry) else None) }
{
    let [low, high, label, last] = entry;
    let table = Table {
        length: u16::from_le_bytes([low, high]),
        secret: label == 1,
    };
    (label <= 1 && last == 0 && fits(table, used)).then_some(table)
}

// The eight table entries, if they are good.
fn tables(bytes: &[u8; 64], used: u8) -> Option<[Table; 8]>
    ensures { result ≡ (if all_below (entry_good bytes.now used) 8 then Some (tables_at bytes.now) else None) }
{
    let mut tables = [Table::UNUSED; 8];
    let (entries, _) = bytes[8..40].as_chunks::<4>();
    // Written by number. `array::try_from_fn` was tried and its proof did not close: what it promises
    // is that each element came from a call of some closure of its type, not of the one handed in.
    for (i, entry) in entries.iter().enumerate() {
        tables[i] = table(*entry, i < usize::from(used))?;
    }
    Some(tables)
}

// Bytes 40 to 63 are zero.
fn rest_is_zero(bytes: &[u8; 64]) -> bool
    ensures { result ≡ all_below (zero_from40 bytes.now) 24 }
{
    bytes[40..].iter().all(|byte| *byte == 0)
}

// The header, if all its bytes are good.
fn header(bytes: &[u8; 64]) -> Option<Header>
    ensures { result ≡ (if header_good bytes.now then Some (header_at bytes.now) else None) }
{
    let [1, 0, used, kind, n0, n1, s0, s1, ..] = *bytes else {
        return None;
    };
    if used > MOST_TABLES {
        return None;
    }
    let header = Header {
        kind: Kind::try_from(kind).ok()?,
        tables: tables(bytes, used)?,
        used,
        count: u16::from_le_bytes([n0, n1]),
        secret_entry: u16::from_le_bytes([s0, s1]),
    };
    if header.count > header.kind.longest() || header.cells() > MOST_CELLS {
        return None;
    }
    rest_is_zero(bytes).then_some(header)
}

// Both clauses go on into the contracts of the image's reader: a type for such an image would serve it alone.
/// The header of an image as long as its header says.
pub fn decode(image: &[u8]) -> Result<Header, Refusal>
    ensures refusal { refused_by result ≡ header_refusal image.now }
    ensures value { IfOk result (λ h. (h ≡ header_at image.now) × (length image.now ≡ 64 + 8 * h.count)) }
{
    let (bytes, code) = image.split_first_chunk::<64>().ok_or(Reason::NoHeader)?;
    let header = header(bytes).ok_or(Reason::BadHeader)?;
    if code.len() != 8 * usize::from(header.count) {
        return Err(Reason::BadLength.into());
    }
    Ok(header)
}
