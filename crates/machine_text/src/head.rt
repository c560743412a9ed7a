//! The words that begin the nine lines.

ghost use Rattle.std.specs.Prelude.{◌≡◌};
ghost use Rattle.machine_text.specs.Heads.{head_of, place_of, follow_of};

/// What a line gives.
#[derive(Clone, Copy, Debug, PartialEq, Eq)]
pub enum Head {
    Teramac,
    Modules,
    Chips,
    Hextants,
    Tables,
    Ports,
    Lines,
    Pins,
    End,
}

/// The lines in order.
pub const HEADS: [Head; 9] = [
    Head::Teramac,
    Head::Modules,
    Head::Chips,
    Head::Hextants,
    Head::Tables,
    Head::Ports,
    Head::Lines,
    Head::Pins,
    Head::End,
];

/// What a line gives that begins with this word.
#[tactic(auto, unfolding(crate::specs::Heads::head_of))]
pub fn head_of(word: &[u8]) -> Option<Head>
    ensures { result ≡ head_of word.now }
{
    if word == b"teramac".as_slice() {
        Some(Head::Teramac)
    } else if word == b"modules".as_slice() {
        Some(Head::Modules)
    } else if word == b"chips".as_slice() {
        Some(Head::Chips)
    } else if word == b"hextants".as_slice() {
        Some(Head::Hextants)
    } else if word == b"tables".as_slice() {
        Some(Head::Tables)
    } else if word == b"ports".as_slice() {
        Some(Head::Ports)
    } else if word == b"lines".as_slice() {
        Some(Head::Lines)
    } else if word == b"pins".as_slice() {
        Some(Head::Pins)
    } else if word == b"end".as_slice() {
        Some(Head::End)
    } else {
        None
    }
}

impl Head {
    /// How many lines stand before this one.
    pub fn place(self) -> usize
        ensures { result ≡ place_of self }
    {
        match self {
            Head::Teramac => 0,
            Head::Modules => 1,
            Head::Chips => 2,
            Head::Hextants => 3,
            Head::Tables => 4,
            Head::Ports => 5,
            Head::Lines => 6,
            Head::Pins => 7,
            Head::End => 8,
        }
    }

    /// How many words follow the first.
    pub fn follow(self) -> usize
        ensures { result ≡ follow_of self }
    {
        match self {
            Head::Ports => 3,
            Head::Lines => 4,
            Head::End => 0,
            _ => 1,
        }
    }
}
