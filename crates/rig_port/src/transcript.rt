//! What a board took for answers. Proofs alone read it.
ghost use Rattle.std.specs.Prelude.{◌≡◌, []};
ghost use Rattle.rig_port.specs.Transcripts.{and_said};

use base_log::Log;
use std::marker::Model;

// A request that was answered, and the line that answered it, as they were.
#[derive(Drop)]
struct Pair {
    request: Log<u8>,
    line: Log<u8>,
}

/// The requests that were answered, in order, each with the line that answered it.
#[derive(Drop)]
pub struct Transcript {
    pairs: Log<Pair>,
}

impl Model for Transcript {
    ghost use Rattle.std.specs.Prelude.{List, map};
    ghost use Rattle.rig_port.specs.Said.{Said, coded_talk};

    ghost Value = { List Said };

    ghost coded = { coded_talk };

    ghost view = { λ t. map (λ p. record { request = p.request.items; line = p.line.items }) t.pairs.items };
}

/// These bytes.
pub fn copied(bytes: &[u8]) -> Log<u8>
    ensures { result.items ≡ bytes.now }
{
    let mut copy = Log::new();
    'bytes: for k in 0..bytes.len() {
        copy = copy.and(&bytes[k]);
    }
    copy
}

impl Transcript {
    /// Nothing was answered.
    pub fn new() -> Transcript
        ensures { result ≡ [] }
    {
        Transcript { pairs: Log::new() }
    }

    /// One request more, with the line that answered it.
    pub fn and(&self, request: &[u8], line: &[u8]) -> Transcript
        ensures { result ≡ and_said self.now request.now line.now }
    {
        let pair = Pair {
            request: copied(request),
            line: copied(line),
        };
        Transcript {
            pairs: self.pairs.and(&pair),
        }
    }
}
