// Items with commas between.
ghost use Rattle.std.specs.Iterator.{IsFinite};

use std::fmt;

/// Writes the items, with a comma between each two. No clause says the text, as none says that of a type
/// which is shown by a loop.
pub fn with_commas<W: fmt::Write, T: fmt::Display + Drop, I: Iterator<Item = T> + Drop>(
    f: &mut fmt::Formatter<W>,
    items: I,
) -> fmt::Result
    requires can_next { I.can_next items × IsFinite (I.remaining items) }
{
    let mut behind = false;
    for item in items {
        if behind {
            f.write_str(",")?;
        }
        write!(f, "{item}")?;
        behind = true;
    }
    Ok(())
}
