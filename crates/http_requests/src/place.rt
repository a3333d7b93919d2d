//! Where in a head some bytes end.
ghost use Rattle.std.specs.Prelude.{◌≡◌};
ghost use Rattle.http_requests.specs.Places.{is_blank, is_end, place_behind};

/// Where in a head some bytes end.
#[derive(Clone, Copy)]
pub(crate) enum Place {
    /// Before its first line: the bytes end lines at most.
    Blank,
    /// In a line.
    Line,
    /// At the start of a line.
    Start,
    /// Behind a CR at the start of a line.
    Return,
    /// Behind the first empty line, where a head ends if it is one.
    End,
}

impl Place {
    /// Where one byte more leads.
    pub(crate) fn behind(self, b: u8) -> Place
        ensures { result ≡ place_behind self b }
    {
        match self {
            Place::Blank if b == b'\r' || b == b'\n' => Place::Blank,
            Place::Line if b == b'\n' => Place::Start,
            Place::Start if b == b'\r' => Place::Return,
            Place::Start | Place::Return if b == b'\n' => Place::End,
            Place::End => Place::End,
            _ => Place::Line,
        }
    }

    /// Whether the bytes end lines at most.
    pub(crate) fn is_blank(self) -> bool
        ensures { result ≡ is_blank self }
    {
        match self {
            Place::Blank => true,
            _ => false,
        }
    }

    /// Whether a head ends here, if the bytes are one.
    pub(crate) fn is_end(self) -> bool
        ensures { result ≡ is_end self }
    {
        match self {
            Place::End => true,
            _ => false,
        }
    }
}
