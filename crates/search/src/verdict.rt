// What a search can say.
ghost use Rattle.std.specs.Prelude.{◌≡◌, Some};
ghost use Rattle.search.specs.Model.{is_final};
ghost use Rattle.search.specs.Texts.{verdict_text};

use std::fmt;

/// What a search says of its question.
#[derive(Clone, Copy, PartialEq, Eq, Hash, Debug)]
pub enum Verdict {
    /// No word satisfies the question.
    None,
    /// Some word satisfies the question.
    Found,
    /// There are more items than places, so the search cannot go on.
    Full,
    /// There are items that were not handled yet.
    Running,
}

/// What a search says: its verdict, the turns done since opening, and the items entered.
#[derive(Clone, Copy, PartialEq, Eq, Hash, Debug)]
pub struct Report {
    pub verdict: Verdict,
    pub turns: usize,
    pub items: usize,
}

impl Verdict {
    // Whether no turn follows.
    pub(crate) fn is_final(self) -> bool
        ensures { result ≡ is_final self }
    {
        self != Verdict::Running
    }
}

impl fmt::Display for Verdict {
    ghost output = { λ v. Some (verdict_text v) };

    fn fmt<W: fmt::Write>(&self, f: &mut fmt::Formatter<W>) -> fmt::Result {
        f.write_str(match self {
            Verdict::None => "none",
            Verdict::Found => "found",
            Verdict::Full => "full",
            Verdict::Running => "running",
        })
    }
}
