ghost use Rattle.std.specs.Prelude.{◌≡◌};
ghost use Rattle.farm_wire.specs.Fields.{field_name};

use std::fmt;

/// The members of a JSON object that a command is read from, and the numbers in the path of a page.
#[derive(Clone, Copy, Debug, PartialEq, Eq)]
pub enum Field {
    /// When a script line is asked: a moment.
    At,
    /// What a script line asks for: `open`, `lease`, `report`, `cancel`, `revert`, `search`, `farm`, `orders`, `runs`
    /// or `list`.
    Do,
    /// The key of a request: a UUID.
    Key,
    /// The test of a search: a name.
    Test,
    /// Who is to make a run: a name.
    Worker,
    /// Who is to revert a commit: a name.
    Agent,
    /// The commit below all suspects: an id.
    Base,
    /// The suspects: an array of arrays of an id and a weight.
    Suspects,
    /// The weight of "there is no culprit": a whole number.
    Calm,
    /// How many runs may be out at once: a whole number.
    Width,
    /// How many reruns confirm a culprit on each side: a whole number.
    Reruns,
    /// The flake rate: an array of two whole numbers.
    Rate,
    /// The miss rate: an array of two whole numbers. It may be left out, for none.
    Miss,
    /// The bar: an array of two whole numbers.
    Bar,
    /// The number of a run, from 1.
    Run,
    /// The number of a search, from 1.
    Search,
    /// What came of a test: `pass`, `fail` or `skip`.
    Verdict,
    /// The first entry of a log page, or the first run or search of a page of these, from 1.
    From,
}

impl Field {
    /// The name of the member.
    pub fn name(self) -> &'static str
        ensures { result.now ≡ field_name self }
    {
        match self {
            Field::At => "at",
            Field::Do => "do",
            Field::Key => "key",
            Field::Test => "test",
            Field::Worker => "worker",
            Field::Agent => "agent",
            Field::Base => "base",
            Field::Suspects => "suspects",
            Field::Calm => "calm",
            Field::Width => "width",
            Field::Reruns => "reruns",
            Field::Rate => "rate",
            Field::Miss => "miss",
            Field::Bar => "bar",
            Field::Run => "run",
            Field::Search => "search",
            Field::Verdict => "verdict",
            Field::From => "from",
        }
    }
}

impl fmt::Display for Field {
    fn fmt<W: fmt::Write>(&self, f: &mut fmt::Formatter<W>) -> fmt::Result {
        f.write_str(self.name())
    }
}
