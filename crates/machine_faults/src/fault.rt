//! A fault, and why it can't be added.

use machine_shape::{Cross, Table, Wire};

/// One fault of a machine.
#[derive(Clone, Copy, Debug, PartialEq, Eq)]
pub enum Fault {
    /// The wire is stuck at the value.
    Stuck {
        wire: Wire,
        value: bool,
    },
    /// The crosspoint is stuck, closed or open.
    CrossStuck {
        cross: Cross,
        closed: bool,
    },
    /// The cell of the table for this address, below 64, always gives the value.
    Cell {
        table: Table,
        address: u8,
        value: bool,
    },
    /// The register of the table always holds the value.
    Register {
        table: Table,
        value: bool,
    },
    /// The two wires are bridged.
    Bridge {
        a: Wire,
        b: Wire,
    },
}

/// Why a fault can't be added to a set. The first that there is is told, in this order.
#[derive(Clone, Copy, Debug, PartialEq, Eq)]
pub enum AddFault {
    /// It is a bridge of a wire with itself.
    Same,
    /// It is there already; a bridge, in either order.
    Doubled,
    /// The other value is there for its wire, crosspoint, cell or register.
    Against,
    /// There are as many faults as a set of this machine may have.
    Limit,
    /// Memory is wanting.
    Memory,
}
