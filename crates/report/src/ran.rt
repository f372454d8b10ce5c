// A run, in lines: each visit, the totals, and what the registers then hold.
ghost use Rattle.std.specs.Prelude.{◌≡◌, Some};
ghost use Rattle.report.specs.Ran.{choice_name, visit_text, fault_text, totals_text};

use machine::visit::{Choice, Visit};
use run::Outcome;
use std::fmt;

/// A visit: its place and the name of its choice.
#[derive(Clone, Copy)]
pub struct VisitLine {
    pub visit: Visit,
}

fn choice_name(choice: Choice) -> &'static str
    ensures { result.now ≡ choice_name choice }
{
    match choice {
        Choice::Onward => "onward",
        Choice::Inward => "inward",
        Choice::Past => "past",
        Choice::Fault => "fault",
    }
}

impl fmt::Display for VisitLine {
    ghost output = { λ v. Some (visit_text v.visit) };

    fn fmt<W: fmt::Write>(&self, f: &mut fmt::Formatter<W>) -> fmt::Result {
        let place = self.visit.place;
        let choice = choice_name(self.visit.choice);
        write!(f, "visit {place} {choice}")
    }
}

/// Whether there was a fault, and where.
#[derive(Clone, Copy)]
pub struct Faulted {
    pub place: Option<u16>,
}

impl fmt::Display for Faulted {
    ghost output = { λ f. Some (fault_text f.place) };

    fn fmt<W: fmt::Write>(&self, f: &mut fmt::Formatter<W>) -> fmt::Result {
        match self.place {
            Some(place) => write!(f, "fault at {place}"),
            None => f.write_str("no fault"),
        }
    }
}

/// How many steps and marks there were, and where a fault was.
#[derive(Clone, Copy)]
pub struct Totals {
    pub outcome: Outcome,
}

impl fmt::Display for Totals {
    ghost output = { λ t. Some (totals_text t.outcome) };

    fn fmt<W: fmt::Write>(&self, f: &mut fmt::Formatter<W>) -> fmt::Result {
        let steps = self.outcome.steps;
        let marks = self.outcome.marks;
        let faulted = Faulted {
            place: self.outcome.fault,
        };
        write!(f, "steps {steps}, marks {marks}, {faulted}")
    }
}

/// Registers, from 0 on.
#[derive(Clone, Copy)]
pub struct Registers<'a> {
    pub words: &'a [u32],
}

impl fmt::Display for Registers<'_> {
    fn fmt<W: fmt::Write>(&self, f: &mut fmt::Formatter<W>) -> fmt::Result {
        f.write_str("registers:")?;
        for (i, word) in self.words.iter().enumerate() {
            write!(f, " r{i}={word}")?;
        }
        Ok(())
    }
}
