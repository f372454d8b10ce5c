// What was written back of an image, on one line.
ghost use Rattle.std.specs.Prelude.{◌≡◌, Some};
ghost use Rattle.listing.specs.Wording.{sameness_text, written_back_text};

use std::fmt;

// The flag stands beside the length since both are shown, and neither says whether the other is there.
/// How many bytes were written, and whether they are those that were read.
#[derive(Clone, Copy)]
pub struct WrittenBack {
    pub length: usize,
    pub same: bool,
}

fn sameness(same: bool) -> &'static str
    ensures { result.now ≡ sameness_text same }
{
    if same { "the same" } else { "not the same" }
}

impl fmt::Display for WrittenBack {
    ghost output = { λ w. Some (written_back_text w.length w.same) };

    fn fmt<W: fmt::Write>(&self, f: &mut fmt::Formatter<W>) -> fmt::Result {
        let length = self.length;
        let verdict = sameness(self.same);
        write!(f, "written back: {length} bytes, {verdict}")
    }
}
