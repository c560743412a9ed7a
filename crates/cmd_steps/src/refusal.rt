//! Why a command ends early.
ghost use Rattle.std.specs.Prelude.{◌≡◌, ◌<◌, IfOk};
ghost use Rattle.machine_shape.specs.Shape.{nodes_of};
ghost use Rattle.cmd_steps.specs.Lines.{design_line, room_line};

use crate::design_file::DesignFile;
use crate::line::{design_text, room_text};
use base_io::{SinkFail, StoreFail};
use design_netlist::DesignKind;
use design_vectors::{VectorKind, VectorsFail};
use machine_defects::DefectsKind;
use machine_faults::{FaultsFault, FaultsKind};
use machine_image::ImageKind;
use machine_shape::Shape;
use machine_text::MachineKind;
use place_plan::Short;
use rig::{AttachFail, RigFail};
use std::alloc::{AllocError, Global};
use std::marker::Model;

/// What is wrong with a design, and on which line. It holds the line that refuses it, so that
/// writing this takes no memory.
#[derive(Debug, Drop)]
pub struct RefusedDesign {
    file: DesignFile,
    line: u64,
    kind: DesignKind,
    text: Vec<u8>,
}

impl Model for RefusedDesign {
    ghost use Rattle.std.specs.Prelude.{◌≡◌};
    ghost use Rattle.cmd_steps.specs.Faults.{DesignPlace};
    ghost use Rattle.cmd_steps.specs.Lines.{design_line};

    ghost Value = { DesignPlace };

    ghost view = { λ d. record { file = d.file; line = d.line; kind = d.kind } };

    ghost invariant = { λ d. d.text.items ≡ design_line d.file d.line d.kind };
}

impl RefusedDesign {
    /// A fault of a design: line 0 stands for its file as a whole.
    pub fn new(
        alloc: Global,
        file: DesignFile,
        line: u64,
        kind: DesignKind,
    ) -> Result<Self, AllocError>
        ensures { IfOk result (λ d. d ≡ record { file = file; line = line; kind = kind }) }
    {
        let text = design_text(alloc, file, line, &kind)?;
        Ok(RefusedDesign {
            file,
            line,
            kind,
            text,
        })
    }

    /// The line that refuses it.
    pub fn text(&self) -> &[u8]
        ensures { result.now ≡ design_line self.now.file self.now.line self.now.kind }
    {
        &self.text
    }
}

/// What is short on a machine of this shape. It holds the line that says so, so that writing this takes no memory.
#[derive(Debug, Drop)]
pub struct RefusedRoom {
    shape: Shape,
    short: Short,
    text: Vec<u8>,
}

impl Model for RefusedRoom {
    ghost use Rattle.std.specs.Prelude.{◌≡◌};
    ghost use Rattle.cmd_steps.specs.Faults.{ShortPlace};
    ghost use Rattle.cmd_steps.specs.Lines.{room_line};

    ghost Value = { ShortPlace };

    ghost view = { λ p. record { shape = p.shape; short = p.short } };

    ghost invariant = { λ p. p.text.items ≡ room_line p.shape p.short };
}

impl RefusedRoom {
    /// What is short at a node of a machine.
    pub fn new(alloc: Global, shape: Shape, short: Short) -> Result<Self, AllocError>
        requires { short.node.0 < nodes_of shape }
        ensures { IfOk result (λ p. p ≡ record { shape = shape; short = short }) }
    {
        let text = room_text(alloc, &shape, &short)?;
        Ok(RefusedRoom { shape, short, text })
    }

    /// The line that says what is short.
    pub fn text(&self) -> &[u8]
        ensures { result.now ≡ room_line self.now.shape self.now.short }
    {
        &self.text
    }
}

/// Why a command is refused.
#[derive(Debug, Drop)]
pub enum Refusal {
    /// The words aren't right.
    Words,
    /// The text of the machine isn't in its grammar, or is beyond its limit.
    Machine { line: u64, kind: MachineKind },
    /// The rig refused the text of faults.
    Faults { line: u64, kind: FaultsKind },
    /// The list of defects isn't in its grammar, or is beyond its limit.
    Defects { line: u64, kind: DefectsKind },
    /// The image isn't in its format, or is beyond its limit. Its line is the place of a byte.
    Image { line: u64, kind: ImageKind },
    /// The design isn't in its grammar, or is beyond its limit.
    Design(RefusedDesign),
    /// The vectors aren't in their grammar, or are beyond their limit.
    Vectors { line: u64, kind: VectorKind },
    /// There is no room for the design.
    Room(RefusedRoom),
    /// The rig failed.
    Rig,
    /// The store failed.
    Store,
    /// Memory was wanting.
    Memory,
    /// Two copies of a design read differently.
    Differ,
}

/// Why a command ends early: it is refused, or the sink takes nothing more.
#[derive(Debug, Drop)]
pub enum Stop {
    Refused(Refusal),
    Sink(SinkFail),
}

impl From<StoreFail> for Stop {
    ghost use Rattle.std.specs.Prelude.{◌≡◌};
    ghost use Rattle.cmd_steps.specs.Stops.{stop_of_store};

    ghost from_gives = { λ fail stop. stop ≡ stop_of_store fail };

    fn from(fail: StoreFail) -> Stop {
        match fail {
            StoreFail::Failed => Stop::Refused(Refusal::Store),
            StoreFail::Memory => Stop::Refused(Refusal::Memory),
        }
    }
}

impl From<RigFail> for Stop {
    ghost use Rattle.std.specs.Prelude.{◌≡◌};
    ghost use Rattle.cmd_steps.specs.Stops.{stop_of_rig};

    ghost from_gives = { λ fail stop. stop ≡ stop_of_rig fail };

    fn from(fail: RigFail) -> Stop {
        match fail {
            RigFail::Failed => Stop::Refused(Refusal::Rig),
            RigFail::Memory => Stop::Refused(Refusal::Memory),
        }
    }
}

impl From<AttachFail> for Stop {
    ghost use Rattle.std.specs.Prelude.{◌≡◌};
    ghost use Rattle.cmd_steps.specs.Stops.{stop_of_attach};

    ghost from_gives = { λ fail stop. stop ≡ stop_of_attach fail };

    fn from(fail: AttachFail) -> Stop {
        match fail {
            AttachFail::Failed => Stop::Refused(Refusal::Rig),
            AttachFail::Faults(FaultsFault::At { line, kind }) => {
                Stop::Refused(Refusal::Faults { line, kind })
            }
            AttachFail::Faults(FaultsFault::Memory) | AttachFail::Memory => {
                Stop::Refused(Refusal::Memory)
            }
        }
    }
}

impl From<VectorsFail> for Stop {
    ghost use Rattle.std.specs.Prelude.{◌≡◌};
    ghost use Rattle.cmd_steps.specs.Stops.{stop_of_vectors};

    ghost from_gives = { λ fail stop. stop ≡ stop_of_vectors fail };

    fn from(fail: VectorsFail) -> Stop {
        match fail {
            VectorsFail::Text { line, kind } => Stop::Refused(Refusal::Vectors { line, kind }),
            VectorsFail::Failed => Stop::Refused(Refusal::Store),
        }
    }
}

impl From<SinkFail> for Stop {
    ghost use Rattle.std.specs.Prelude.{◌≡◌};
    ghost use Rattle.cmd_steps.specs.declared.refusal.Stop.TheVariants.{Sink};

    ghost from_gives = { λ fail stop. stop ≡ Sink fail };

    fn from(fail: SinkFail) -> Stop {
        Stop::Sink(fail)
    }
}

impl From<AllocError> for Stop {
    ghost use Rattle.std.specs.Prelude.{◌≡◌};
    ghost use Rattle.cmd_steps.specs.declared.refusal.Stop.TheVariants.{Refused};
    ghost use Rattle.cmd_steps.specs.declared.refusal.Refusal.TheVariants.{Memory};

    ghost from_gives = { λ fail stop. stop ≡ Refused Memory };

    fn from(_: AllocError) -> Stop {
        Stop::Refused(Refusal::Memory)
    }
}
