//! A port as a trait.
ghost use Rattle.std.specs.Prelude.{◌≡◌, ◌^◌, ◌<◌, ◌≤◌, true, false, None, Some, length, take};
ghost use Rattle.std.specs.Prelude.{IfOk, IfErr, OnOk, OnErr, IsErrOf};
ghost use Rattle.base_io.specs.Counts.{Rose};
ghost use Rattle.rig_board.specs.Device.{WhereTold};
ghost use Rattle.rig_port.specs.Answers.{Answers};
ghost use Rattle.rig_port.specs.Ports.{PortState, machine_told, Opens, AskFails};
ghost use Rattle.rig_port.specs.Transcripts.{and_sent};

/// Why a port isn't opened or gives no reply.
#[derive(Clone, Copy, Debug, PartialEq, Eq)]
pub enum PortFail {
    /// The port failed, and counted it.
    Failed,
    /// Memory is wanting.
    Memory,
}

/// A way to a machine: a request is sent, and a line comes back.
///
/// Contracts see whether it is open, the device at the other end where the port tells one, the requests that it was asked, each with
/// the line that answered it, if one did, and a count of failures, which is a `u64` and never falls. No code sees the device or what was
/// asked.
pub trait Port: Drop {
    ghost port_state: { Self → PortState };

    /// Opens the port of this name. A refusal leaves it closed.
    ///
    /// # Errors
    ///
    /// `Failed` where it can't be opened; the count rose. Out of memory.
    fn open(&mut self, name: &str) -> Result<(), PortFail>
        ensures later { (port_state self.old).failures ≤ (port_state self.new).failures }
        ensures count { (port_state self.new).failures < 2 ^ 64 }
        ensures talk { (port_state self.new).talk ≡ (port_state self.old).talk }
        ensures opens { OnOk result (Opens (port_state self.new)) }
        ensures closed { OnErr result ((port_state self.new).is_open ≡ false) }
        ensures refused { IsErrOf result PortFail.Failed → Rose (port_state self.old).failures (port_state self.new).failures };

    /// Whether it is open.
    fn is_open(&self) -> bool
        ensures { result ≡ (port_state self.now).is_open };

    /// Sends a request, and reads the line that answers to the front of `reply`; answers its length. A refusal leaves any bytes in
    /// `reply`, and the port closed, or open for a further request. It takes no memory, but for what an end that is code takes in the
    /// same process (`RigPort`).
    ///
    /// # Errors
    ///
    /// `Failed` where the request doesn't go out, no whole line comes that `reply` has room for, or the other end refuses; the count
    /// rose. Never `Memory`.
    fn ask(&mut self, request: &[u8], reply: &mut [u8]) -> Result<usize, PortFail>
        requires { (port_state self.old).is_open ≡ true }

        ensures machine { machine_told (port_state self.new) ≡ machine_told (port_state self.old) }
        ensures later { (port_state self.old).failures ≤ (port_state self.new).failures }
        ensures count { (port_state self.new).failures < 2 ^ 64 }
        ensures said { IfOk result (λ n. (port_state self.new).talk ≡ and_sent (port_state self.old).talk request.now
            (Some (take n reply.new))) }
        ensures unsaid { OnErr result ((port_state self.new).talk ≡ and_sent (port_state self.old).talk request.now None) }
        ensures length { length reply.new ≡ length reply.old }
        ensures within { IfOk result (λ n. n ≤ length reply.new) }
        ensures stays { OnOk result ((port_state self.new).is_open ≡ true) }
        ensures told { IfOk result (λ n. WhereTold (λ d e. Answers d (port_state self.old).check request.now (take n reply.new) e
            (port_state self.new).check) (port_state self.old).device (port_state self.new).device) }
        ensures refused { IfErr result (λ e. AskFails e (port_state self.old) (port_state self.new)) };
}
