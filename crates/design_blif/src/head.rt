//! What a line begins with.

ghost use Rattle.std.specs.Prelude.{◌≡◌, slice_index};
ghost use Rattle.std.specs.List.{list_any};
ghost use Rattle.std.specs.Str.{bytes_eq};
ghost use Rattle.design_blif.specs.Heads.{head_of, left_out};

/// The kinds of line.
#[derive(Clone, Copy, Debug, PartialEq, Eq)]
pub enum Head {
    Model,
    Inputs,
    Outputs,
    Names,
    Latch,
    End,
    Clock,
    Subckt,
    /// LogicalLine of BLIF that are left out.
    LeftOut,
    /// Passed over like an empty line.
    Passed,
    /// Another word that begins with a dot.
    Unknown,
    /// A word that doesn't begin with a dot: a row.
    Row,
}

/// The words that are left out.
const LEFT_OUT: [&[u8]; 26] = [
    b".exdc",
    b".gate",
    b".mlatch",
    b".search",
    b".start_kiss",
    b".end_kiss",
    b".latch_order",
    b".code",
    b".cycle",
    b".clock_event",
    b".area",
    b".delay",
    b".wire",
    b".wire_load_slope",
    b".input_arrival",
    b".default_input_arrival",
    b".output_required",
    b".default_output_required",
    b".input_drive",
    b".default_input_drive",
    b".output_load",
    b".default_output_load",
    b".max_input_load",
    b".default_max_input_load",
    b".blackbox",
    b".conn",
];

fn is_one_of(word: &[u8], words: &[&[u8]]) -> bool
    ensures { result ≡ list_any (λ w. bytes_eq word.now w.now) words.now }
{
    words.iter().any(|w| word == *w)
}

fn is_left_out(word: &[u8]) -> bool
    ensures { result ≡ list_any (bytes_eq word.now) left_out }
{
    is_one_of(word, &LEFT_OUT)
}

/// The kind of line that begins with this word, looked up among all words.
#[tactic(auto, unfolding(crate::specs::Heads::head_of))]
fn known_head(word: &[u8]) -> Head
    ensures { result ≡ head_of word.now }
{
    if word == b".model".as_slice() {
        Head::Model
    } else if word == b".inputs".as_slice() {
        Head::Inputs
    } else if word == b".outputs".as_slice() {
        Head::Outputs
    } else if word == b".names".as_slice() {
        Head::Names
    } else if word == b".latch".as_slice() {
        Head::Latch
    } else if word == b".end".as_slice() {
        Head::End
    } else if word == b".param".as_slice()
        || word == b".attr".as_slice()
        || word == b".cname".as_slice()
    {
        Head::Passed
    } else if word == b".clock".as_slice() {
        Head::Clock
    } else if word == b".subckt".as_slice() {
        Head::Subckt
    } else if is_left_out(word) {
        Head::LeftOut
    } else if word.first() == Some(&b'.') {
        Head::Unknown
    } else {
        Head::Row
    }
}

fn first_byte(word: &[u8]) -> u8
    ensures { result ≡ slice_index word.now 0 }
{
    match word.first() {
        Some(byte) => *byte,
        None => 0,
    }
}

/// The kind of line that begins with this word. Most lines are rows, which no word has to be compared with.
pub fn head_of(word: &[u8]) -> Head
    ensures { result ≡ head_of word.now }
{
    if first_byte(word) == b'.' {
        known_head(word)
    } else {
        Head::Row
    }
}
