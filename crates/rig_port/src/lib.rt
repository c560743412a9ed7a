//! A machine behind a port: a board that is asked and answers by lines of text.
//!
//! `specs/Lines` and `specs/Requests` are the protocol, `specs/Answers` what a machine does at a request, `specs/Ports` what a port
//! means. `PortBoard` is a board over any port: where the port tells its machine, the board tells it too, and what was sent means the
//! configuration that was asked for. It fails then only where the port did (`alarm`), or in `set_up` where it isn't up; it is up from an
//! `Ok` of `find` until a refusal of `find` or of a cycle (`up`, `down`, `stays`). All that it sends, answered or not, are requests to the
//! machine that it found (`taken`). `FilePort` is a port over files, which tells none; it says what it wrote and read
//! (`specs/FilePorts`). `RigPort` is the other end over a rig, which shows that a port can tell one. How lines are made and read may
//! change, as long as they are spelled so; the tool takes a reply byte by byte (docs/PORT.md).
#![tactic(auto)]

mod again;
mod check;
mod edits;
mod exact;
mod file_board;
mod file_port;
mod link;
mod named_port;
mod parse;
mod port;
mod port_board;
mod port_log;
mod question;
mod replay_port;
mod respell;
mod resume;
mod rig_port;
mod spelling;
mod talk;
mod transcript;
mod turn;
mod wanted;

pub use exact::port_exact;
pub use file_board::FileBoard;
pub use file_port::FilePort;
pub use named_port::NamedPort;
pub use port::{Port, PortFail};
pub use port_board::PortBoard;
pub use port_log::PortLog;
pub use replay_port::ReplayPort;
pub use rig_port::RigPort;
