// Visits as text.
use machine::visit::Visit;
use makes::commas::with_commas;
use std::fmt;

/// Each visit as its place and the number of its choice, separated by commas; `-` stands for none.
#[derive(Clone, Copy)]
pub struct Visits<'a> {
    pub visits: &'a [Visit],
}

#[derive(Clone, Copy)]
struct Step {
    visit: Visit,
}

impl fmt::Display for Step {
    fn fmt<W: fmt::Write>(&self, f: &mut fmt::Formatter<W>) -> fmt::Result {
        let place = self.visit.place;
        let choice = self.visit.choice.number();
        write!(f, "{place}.{choice}")
    }
}

impl fmt::Display for Visits<'_> {
    fn fmt<W: fmt::Write>(&self, f: &mut fmt::Formatter<W>) -> fmt::Result {
        if self.visits.is_empty() {
            return f.write_str("-");
        }
        with_commas(f, self.visits.iter().map(|visit| Step { visit: *visit }))
    }
}
