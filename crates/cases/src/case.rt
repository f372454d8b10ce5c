// A case, as a line of a case file has it.
ghost use Rattle.std.specs.Prelude.{◌≡◌, ◌≤◌, IfSome, IfOk};
ghost use Rattle.cases.specs.Lines.{line_of};

use crate::case_error::CaseError;

/// The longest list that a case may ask for: longer than any that makes a difference.
const LONGEST_LIST: usize = 2_000_000;

/// `KIND ID NAME=VALUE NAME=VALUE .. -> EXPECTED`
#[derive(Clone, Copy)]
pub struct Case<'a> {
    pub kind: &'a str,
    pub id: &'a str,
    pub given: &'a str,
    pub expected: &'a str,
}

impl<'a> Case<'a> {
    /// The case of a line, if the line is one.
    pub fn parse(line: &'a str) -> Option<Case<'a>>
        ensures { IfSome result (λ c. line_of c ≡ line.now) }
    {
        let (before, expected) = line.split_once(" -> ")?;
        let (kind, rest) = before.split_once(' ')?;
        let (id, given) = rest.split_once(' ')?;
        Some(Case {
            kind,
            id,
            given,
            expected,
        })
    }

    // What is given under a name.
    pub(crate) fn value(self, name: &str) -> Result<&'a str, CaseError> {
        self.given
            .split(' ')
            .find_map(|word| word.strip_prefix(name)?.strip_prefix('='))
            .ok_or(CaseError::Unreadable)
    }

    /// The length of a list that is given under a name.
    pub fn length(self, name: &str) -> Result<usize, CaseError>
        ensures { IfOk result (λ n. n ≤ 2000000) }
    {
        match self.value(name)?.parse::<usize>() {
            Ok(length) if length <= LONGEST_LIST => Ok(length),
            _ => Err(CaseError::Unreadable),
        }
    }
}
