ghost use Rattle.std.specs.Prelude.{◌≡◌};
ghost use Rattle.engines.specs.Breaking.{left_of, right_of};

// What a host tells of two pictures.
#[derive(Clone, Copy, PartialEq, Eq, Debug)]
pub enum Entry {
    Same(u16, u16),
    Differ(u16, u16),
}

impl Entry {
    // The first of its two pictures.
    pub fn left(self) -> u16
        ensures { result ≡ left_of self }
    {
        match self {
            Entry::Same(a, _) | Entry::Differ(a, _) => a,
        }
    }

    // The second of its two pictures.
    pub fn right(self) -> u16
        ensures { result ≡ right_of self }
    {
        match self {
            Entry::Same(_, b) | Entry::Differ(_, b) => b,
        }
    }
}
