//! The words that begin the entries of a fault text.

ghost use Rattle.std.specs.Prelude.{◌≡◌, ◌≢◌, IfSome, IfNone, ◌<◌};
ghost use Rattle.machine_faults.specs.Heads.{word_of, follow_of};
ghost use Rattle.machine_faults.specs.declared.head.Head.{Head};

/// The first word of an entry.
#[derive(Clone, Copy, Debug, PartialEq, Eq)]
pub enum Head {
    Stuck0,
    Stuck1,
    Open,
    Closed,
    Cell,
    Register,
    Bridge,
}

/// The head that this word is.
pub fn head_of(word: &[u8]) -> Option<Head>
    ensures some { IfSome result (λ h. word_of h ≡ word.now) }
    ensures none { IfNone result ((h : Head) → word_of h ≢ word.now) }
{
    if word == b"stuck0".as_slice() {
        Some(Head::Stuck0)
    } else if word == b"stuck1".as_slice() {
        Some(Head::Stuck1)
    } else if word == b"open".as_slice() {
        Some(Head::Open)
    } else if word == b"closed".as_slice() {
        Some(Head::Closed)
    } else if word == b"cell".as_slice() {
        Some(Head::Cell)
    } else if word == b"register".as_slice() {
        Some(Head::Register)
    } else if word == b"bridge".as_slice() {
        Some(Head::Bridge)
    } else {
        None
    }
}

impl Head {
    /// How many words follow.
    pub fn follow(self) -> usize
        ensures { result ≡ follow_of self }
    {
        match self {
            Head::Stuck0 | Head::Stuck1 => 1,
            Head::Cell => 3,
            _ => 2,
        }
    }
}
