//! The summary.
ghost use Rattle.std.specs.Prelude.{◌≡◌, ◌≤◌, ◌+◌, ◌++◌, length};
ghost use Rattle.arrayvec.specs.ArrayString.{array_string_len};
ghost use Rattle.cmd_bench.specs.Summary.{number_line, summary_text};

use arrayvec::ArrayString;
use itoa::Buffer;

/// How many tables the plain network of the design has.
const TABLES: u64 = 17;

/// How many nets it has.
const NETS: u64 = 18;

// Adds a line of a word and a number.
fn put_line(text: &mut ArrayString<192>, word: &str, n: u64)
    requires room { array_string_len text.old + length word.now + 21 ≤ 192 }
    ensures line { text.new.bytes ≡ text.old.bytes ++ number_line word.now n }
    ensures short { array_string_len text.new ≤ array_string_len text.old + length word.now + 21 }
{
    let mut digits = Buffer::new();
    text.push_str(word);
    text.push_str(digits.format(n));
    text.push_str("\n");
}

/// The summary. Takes no memory.
pub fn summary(n: u32, ones: u32, loads: u64) -> ArrayString<192>
    ensures { result.bytes ≡ summary_text n 17 18 ones loads }
{
    let mut text = ArrayString::new();
    put_line(&mut text, "bench ", n as u64);
    text.push_str("shape 2 2 4 8 24 24 24 32 32 32 32 28\n");
    put_line(&mut text, "tables ", TABLES);
    put_line(&mut text, "nets ", NETS);
    text.push_str("rows 64\n");
    put_line(&mut text, "ones ", ones as u64);
    put_line(&mut text, "loads ", loads);
    text
}
