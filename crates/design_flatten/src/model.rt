//! Models, as the lines of a design describe them.

use base_lists::Items;
use design_netlist::{Cover, LatchDef, Name, PortDef};

/// A formal of another model, and the signal of this model that it becomes.
#[derive(Debug, Drop)]
pub struct PairDef {
    /// A name of the other model's inputs, outputs or clocks.
    pub formal: Name,
    /// The number of a signal, below the number of this model's names.
    pub actual: u32,
}

/// A cover, a latch with its control, or the use of a model.
#[derive(Debug, Drop)]
pub enum Piece {
    /// A `.names` line with its rows, each as long as the cover's inputs.
    Names(Cover),
    /// A `.latch` line. The control is None where the line has none or `NIL`.
    Latch {
        latch: LatchDef,
        control: Option<Name>,
    },
    /// A `.subckt` line: the model that it uses, and what it gives.
    Inst {
        model: Name,
        pairs: Items<PairDef>,
        line: u64,
    },
}

/// A model: its signals, and what its lines say of them.
///
/// Signals are numbers below the number of `names`, in which no name stands twice.
#[derive(Debug, Drop)]
pub struct Model {
    pub name: Name,
    pub names: Items<Name>,
    pub inputs: Items<PortDef>,
    pub outputs: Items<PortDef>,
    /// Names that other models may give as formals, without effect.
    pub clocks: Items<Name>,
    pub pieces: Items<Piece>,
}

/// A signal of the substituted design: signal `own` of the model that replaced line `used`.
///
/// The replaced lines are numbered from 1; the first model counts as what replaced line 0.
#[derive(Clone, Copy, Debug, PartialEq, Eq, Hash)]
pub struct Signal {
    pub used: u32,
    pub own: u32,
}
