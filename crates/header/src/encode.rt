// From a header to bytes.
ghost use Rattle.std.specs.Prelude.{◌≡◌, map};
ghost use Rattle.header.specs.Layout.{entry_bytes, start_bytes, header_bytes};

use program::header::{Header, Table};

// Bytes 0 to 7.
fn start(header: &Header) -> [u8; 8]
    ensures { result ≡ start_bytes header.now }
{
    let [n0, n1] = header.count.to_le_bytes();
    let [s0, s1] = header.secret_entry.to_le_bytes();
    [1, 0, header.used, header.kind as u8, n0, n1, s0, s1]
}

fn entry(table: Table) -> [u8; 4]
    ensures { result ≡ entry_bytes table }
{
    let [low, high] = table.length.to_le_bytes();
    [low, high, u8::from(table.secret), 0]
}

fn entries(tables: &[Table; 8]) -> [[u8; 4]; 8]
    ensures { result ≡ map entry_bytes tables.now }
{
    tables.map(entry)
}

/// The 64 bytes of a header: its first values, its table entries, and zero bytes.
pub fn encode(header: &Header) -> [u8; 64]
    ensures { result ≡ header_bytes header.now }
{
    let mut bytes = [0; 64];
    bytes[..8].copy_from_slice(&start(header));
    bytes[8..40].copy_from_slice(entries(&header.tables).as_flattened());
    bytes
}
