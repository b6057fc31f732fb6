// How many servers there are, and how many of them may be faulty.
ghost use Rattle.std.specs.Prelude.{◌≡◌, ◌<◌, ◌≤◌, MatchOption};

// At most ten servers, and how many of them may be faulty.
#[derive(Clone, Copy)]
pub struct Servers {
    many: u8,
    faulty: u8,
    ghost few: { many ≤ 10 },
}

impl Servers {
    // So many servers of which so many may be faulty, or none where there are more than ten.
    pub fn new(many: u8, faulty: u8) -> Option<Servers>
        ensures cases { MatchOption result (10 < many) (λ s. (many ≤ 10) × (s.many ≡ many) × (s.faulty ≡ faulty)) }
    {
        if many > 10 {
            return None;
        }
        Some(Servers { many, faulty })
    }

    // How many there are.
    pub fn many(self) -> u8
        ensures value { result ≡ self.many }
        ensures few { result ≤ 10 }
    {
        self.many
    }

    // How many of them may be faulty.
    pub fn faulty(self) -> u8
        ensures value { result ≡ self.faulty }
    {
        self.faulty
    }
}
