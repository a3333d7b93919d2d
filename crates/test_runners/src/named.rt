//! Which runner a word names.
ghost use Rattle.std.specs.Prelude.{◌≡◌};
ghost use Rattle.test_runners.specs.Named.{name_seen, runner_asked};

/// The runner that a word names.
#[derive(Clone, Copy)]
pub enum RunnerName<'a> {
    /// `table:PATH`: the table in the file at this path.
    Table(&'a str),
    /// `host:ADDRESS`: the test host at this address.
    Host(&'a str),
    /// Any other word names none.
    Nothing,
}

/// The runner that a word names.
pub fn runner_named(word: &str) -> RunnerName<'_>
    ensures { name_seen result ≡ runner_asked word.now }
{
    if let Some(path) = word.strip_prefix("table:") {
        RunnerName::Table(path)
    } else if let Some(address) = word.strip_prefix("host:") {
        RunnerName::Host(address)
    } else {
        RunnerName::Nothing
    }
}
