//! What a port was asked. Proofs alone read it.
ghost use Rattle.std.specs.Prelude.{◌≡◌, [], None, Some};
ghost use Rattle.rig_port.specs.Transcripts.{and_sent};

use crate::transcript::copied;
use base_log::Log;
use std::marker::Model;

// A request, and the line that answered it, if one did, as they were.
#[derive(Drop)]
struct Ask {
    request: Log<u8>,
    line: Option<Log<u8>>,
}

/// All requests that a port was asked, in order, each with the line that answered it, if one did.
#[derive(Drop)]
pub struct PortLog {
    asks: Log<Ask>,
}

impl Model for PortLog {
    ghost use Rattle.std.specs.Prelude.{List, map, option_map};
    ghost use Rattle.rig_port.specs.Said.{Sent, coded_port_talk};

    ghost Value = { List Sent };

    ghost coded = { coded_port_talk };

    ghost view = { λ t. map (λ p. record { request = p.request.items; line = option_map (λ l. l.items) p.line }) t.asks.items };
}

impl PortLog {
    /// Nothing was asked.
    pub fn new() -> PortLog
        ensures { result ≡ [] }
    {
        PortLog { asks: Log::new() }
    }

    /// One request more, with the line that answered it.
    pub fn and(&self, request: &[u8], line: &[u8]) -> PortLog
        ensures { result ≡ and_sent self.now request.now (Some line.now) }
    {
        let ask = Ask {
            request: copied(request),
            line: Some(copied(line)),
        };
        PortLog {
            asks: self.asks.and(&ask),
        }
    }

    /// One request more, which no line answered.
    pub fn and_unanswered(&self, request: &[u8]) -> PortLog
        ensures { result ≡ and_sent self.now request.now None }
    {
        let ask = Ask {
            request: copied(request),
            line: None,
        };
        PortLog {
            asks: self.asks.and(&ask),
        }
    }
}
