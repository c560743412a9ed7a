//! What a board over a port keeps while it is up.
use crate::check::Check;
use crate::transcript::Transcript;
use machine_config::Config;

/// The board's own configuration, the words that make the machine's of it, the running check, and buffers.
#[derive(Drop)]
pub struct Link {
    pub set: Config,
    // What wasn't sent: the words of edits, behind a `z` where all has to be sent anew.
    pub line: Vec<u8>,
    pub anew: bool,
    // Whether there is a session, and whether the machine doesn't know of it yet.
    pub running: bool,
    pub due: bool,
    // Whether memory was lacking on the way, so that all has to be set anew.
    pub lost: bool,
    pub check: Check,
    pub reply: Vec<u8>,
    pub expected: Vec<u8>,
    // What was taken for answers since the machine was found.
    pub talk: Transcript,
}
