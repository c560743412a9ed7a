//! A machine with its session.

ghost use Rattle.std.specs.Prelude.{◌≡◌, ◌<◌, Some, None, [], length, IfOk, IsSome, IfSome, OnOk, OnErr, option_map};
ghost use Rattle.machine_shape.specs.Shape.{pins_of};
ghost use Rattle.machine_meaning.specs.Faults.{AreFaultsOf};
ghost use Rattle.rig.specs.Rig.{Session, KeepLengths};
ghost use Rattle.rig_simulated.specs.States.{HasGoneOn, HasRoomFor, HasGoneOnBy, AreWide};

use crate::board::{Board, load, prepare};
use crate::cycle::cycle;
use base_log::Log;
use machine_config::Config;
use machine_faults::FaultSet;
use machine_shape::Cross;
use rig::PinBits;
use std::alloc::{AllocError, Global};
use std::marker::Model;

/// A machine with these faults, and a session of it. What a load or a cycle needs is kept for the next.
#[derive(Drop)]
pub struct Sim {
    faults: FaultSet,
    board: Board,
    // The configuration, beside its tables, which the board has. What is closed stays listed from load to load.
    closed: Vec<Cross>,
    ticks: u16,
    // What was driven and read in each cycle, for proofs alone. So a cycle takes no memory.
    drives: Log<PinBits>,
    readings: Log<PinBits>,
    // For how many cycles more there is to be room.
    room: u64,
    running: bool,
}

impl Model for Sim {
    ghost use Rattle.rig_simulated.specs.States.{SimState, coded_sim};

    ghost Value = { SimState };

    ghost coded = { coded_sim };

    ghost use Rattle.rig_simulated.specs.Sims.{state_of_sim, IsSim};

    ghost view = { state_of_sim };

    ghost invariant = { IsSim };
}

impl Sim {
    /// A machine with these faults, and no session.
    pub fn new(alloc: Global, faults: FaultSet) -> Result<Sim, AllocError>
        ensures made { IfOk result (λ s. s ≡ record { machine = faults; session = None }) }
        ensures sound { IfOk result (λ s. AreFaultsOf s.machine.shape s.machine.faults) }
    {
        // The faults are those of their shape.
        let _shape = faults.shape();
        let board = prepare(alloc, &faults)?;
        Ok(Sim {
            faults,
            board,
            closed: Vec::new(alloc),
            ticks: 1,
            drives: Log::new(),
            readings: Log::new(),
            room: 0,
            running: false,
        })
    }

    /// Begins a session with this configuration, and room for so many cycles. A refusal leaves none.
    pub fn load(&mut self, config: &Config, room: u32) -> Result<(), AllocError>
        requires { config.now.config.shape ≡ self.old.machine.shape }
        ensures machine { self.new.machine ≡ self.old.machine }
        ensures sound { AreFaultsOf self.new.machine.shape self.new.machine.faults }
        ensures begun { OnOk result (self.new.session ≡ Some (record { config = config.now.config; cycles = []; spare = room })) }
        ensures none { OnErr result (self.new.session ≡ None) }
    {
        // Each table of the shape has its setting.
        let _shape = config.shape();
        self.running = false;
        self.drives = Log::new();
        self.readings = Log::new();
        load(&mut self.board, &mut self.closed, &self.faults, config)?;
        self.room = u64::from(room);
        self.ticks = config.ticks();
        self.running = true;
        Ok(())
    }

    /// Drives the pins for one cycle, and reads them. Memory is wanting only where there is no room for a cycle,
    /// and then all is as it was.
    pub fn cycle(&mut self, drive: &PinBits, read: &mut PinBits) -> Result<(), AllocError>
        requires drive { option_map (λ (s : Session). pins_of s.config.shape) self.old.session ≡ Some (length drive.now) }
        requires read { option_map (λ (s : Session). pins_of s.config.shape) self.old.session ≡ Some (length read.old) }
        ensures machine { self.new.machine ≡ self.old.machine }
        ensures length { length read.new ≡ length read.old }
        ensures done { OnOk result (HasGoneOn drive.now read.new self.old self.new) }
        ensures kept { OnErr result (self.new.session ≡ self.old.session) }
        ensures full { OnErr result (IfSome self.old.session (λ s. s.spare ≡ 0)) }
        ensures read { OnErr result (read.new ≡ read.old) }
    {
        cycle(&mut self.board, &self.faults, self.ticks, drive, read);
        self.drives = self.drives.and(drive);
        self.readings = self.readings.and(read);
        Ok(())
    }

    /// Makes room for so many cycles more. Where memory is lacking for that, all is as it was.
    fn make_room(&mut self, more: u64) -> Result<(), AllocError>
        requires { IsSome self.old.session }
        ensures machine { self.new.machine ≡ self.old.machine }
        ensures room { OnOk result (HasRoomFor more self.old self.new) }
        ensures kept { OnErr result (self.new.session ≡ self.old.session) }
        ensures full { OnErr result (IfSome self.old.session (λ s. s.spare < more)) }
    {
        self.room = self.room.max(more);
        Ok(())
    }

    /// Makes as many cycles as there are drives, one after the other. Memory is wanting only where there is room for
    /// fewer, and then the session is as it was and nothing was driven.
    pub fn cycles(&mut self, drives: &[PinBits], reads: &mut [PinBits]) -> Result<(), AllocError>
        requires session { IsSome self.old.session }
        requires drives { AreWide self.old drives.now }
        requires reads { AreWide self.old reads.old }
        requires as_many { length drives.now ≡ length reads.old }
        ensures machine { self.new.machine ≡ self.old.machine }
        ensures lengths { KeepLengths reads.old reads.new }
        ensures done { OnOk result (HasGoneOnBy drives.now reads.new self.old self.new) }
        ensures kept { OnErr result (self.new.session ≡ self.old.session) }
        ensures full { OnErr result (IfSome self.old.session (λ s. s.spare < length drives.now)) }
    {
        self.make_room(drives.len() as u64)?;
        'turns: for k in 0..drives.len() {
            if self.cycle(&drives[k], &mut reads[k]).is_err() {
                unreachable!()
            }
        }
        Ok(())
    }
}
