// Words of a line, with one space between.
ghost use Rattle.std.specs.Prelude.{◌≡◌};
ghost use Rattle.script.specs.Words.{first, rest};

/// The first word, and what stands behind the space after it.
pub(crate) fn split(text: &str) -> (&str, &str)
    ensures first { result.0.now ≡ first text.now }
    ensures rest { result.1.now ≡ rest text.now }
{
    text.split_once(' ').unwrap_or((text, ""))
}
