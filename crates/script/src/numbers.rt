// Numbers in digits.
ghost use Rattle.std.specs.Prelude.{◌≡◌, ◌≤◌};
ghost use Rattle.script.specs.Numbers.{base_of, digits_in, number_of};

// The digits of a number, and their base.
fn digits(text: &str) -> (u32, &str)
    ensures base { result.0 ≡ base_of text.now }
    ensures bounds { (2 ≤ result.0) × (result.0 ≤ 36) }
    ensures digits { result.1.now ≡ digits_in text.now }
{
    match text.strip_prefix("0x") {
        Some(digits) => (16, digits),
        None => (10, text),
    }
}

/// A table, an index, a register or a room.
pub(crate) fn number(text: &str) -> Option<usize>
    ensures { result ≡ number_of 64 text.now }
{
    let (base, digits) = digits(text);
    usize::from_str_radix(digits, base).ok()
}

/// A word of a cell or of a register.
pub(crate) fn word(text: &str) -> Option<u32>
    ensures { result ≡ number_of 32 text.now }
{
    let (base, digits) = digits(text);
    u32::from_str_radix(digits, base).ok()
}
