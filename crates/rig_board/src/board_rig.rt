//! A board as a rig.
ghost use Rattle.std.specs.Prelude.{◌≡◌, ◌-◌, ◌^◌, None, [], min, map, option_map, string_bytes};
ghost use Rattle.std.proofs.Props.{props};
ghost use Rattle.rig.specs.Rig.{IsDetached, log_of};
ghost use Rattle.rig_board.specs.Codes.{coded_config_told as configs, coded_cycles_told as cycles};
ghost use Rattle.rig_board.specs.Device.{faults_told};
ghost use Rattle.rig_board.specs.Kept.{session_of, past_of};
ghost use Rattle.rig_board.specs.Linked.{IsLinked};
ghost use Rattle.rig_board.specs.Machines.{AreLogged};

use crate::Board;
use crate::kept::Kept;
use base_log::Log;
use machine_config::Config;
use machine_shape::Shape;
use rig::{AskedMachine, AskedMachines, AttachFail, PinBits, Rig, RigFail};
use std::alloc::Global;

/// A board as a rig. It tells the faults of the device that its board tells, and no fault texts; its count of failures is its
/// board's.
#[derive(Drop)]
pub struct BoardRig<B: Board> {
    alloc: Global,
    board: B,
    asked: AskedMachines,
    // The machine that is attached, which the board found.
    machine: Option<AskedMachine>,
    kept: Option<Kept>,
    // The sessions that have ended, for proofs alone.
    past: Log<Kept>,
    loads: u64,
    ghost linked: { IsLinked (B.board_state board) (option_map (λ m. m.shape) machine) kept } by { Prim.hlevel (props, configs, cycles) },
    ghost logged: { AreLogged (B.may_be board) (map past_of past.items) (option_map session_of kept) } by { Prim.hlevel (props, configs, cycles) },
}

impl<B: Board> BoardRig<B> {
    /// A rig over this board with nothing attached, which was asked for no machine.
    pub fn new(alloc: Global, board: B) -> Self
        ensures board { B.board_state result.board ≡ B.board_state board }
        ensures asked { (⟦<BoardRig<B> as Rig>⟧.rig_state result).machine.asked ≡ [] }
        ensures detached { IsDetached (⟦<BoardRig<B> as Rig>⟧.rig_state result) }
        ensures loads { (⟦<BoardRig<B> as Rig>⟧.rig_state result).loads ≡ 0 }
    {
        BoardRig {
            alloc,
            board,
            asked: AskedMachines::new(alloc),
            machine: None,
            kept: None,
            past: Log::new(),
            loads: 0,
        }
    }

    // The session ends.
    fn end(&mut self)
        ensures board { self.new.board ≡ self.old.board }
        ensures machine { self.new.machine ≡ self.old.machine }
        ensures asked { self.new.asked ≡ self.old.asked }
        ensures loads { self.new.loads ≡ self.old.loads }
        ensures none { self.new.kept ≡ None }
        ensures past { map past_of self.new.past.items ≡ log_of (⟦<BoardRig<B> as Rig>⟧.rig_state self.old) }
    {
        if let Some(kept) = self.kept.take() {
            self.past = self.past.and(&kept);
        }
    }
}

impl<B: Board> Rig for BoardRig<B> {
    ghost rig_state = { λ s. record {
      machine = record {
        asked = s.asked;
        attached = option_map (λ m. record { shape = m.shape; name = string_bytes m.name }) s.machine;
        faults = faults_told (B.board_state s.board).device;
        texts = λ _. None;
        refused = record { times = 0; last = None };
      };
      session = option_map session_of s.kept;
      past = map past_of s.past.items;
      loads = s.loads;
      failures = min (B.board_state s.board).failures (2 ^ 64 - 1);
    } };

    fn attach(&mut self, shape: &Shape, name: &str) -> Result<(), AttachFail> {
        self.machine = None;
        self.kept = None;
        self.past = Log::new();
        let Ok(own_name) = String::from_str(self.alloc, name) else {
            return Err(AttachFail::Memory);
        };
        if self.asked.add(shape, name).is_err() {
            return Err(AttachFail::Memory);
        }
        match self.board.find(shape, name) {
            Ok(()) => {
                self.machine = Some(AskedMachine {
                    shape: *shape,
                    name: own_name,
                });
                Ok(())
            }
            Err(RigFail::Failed) => Err(AttachFail::Failed),
            Err(RigFail::Memory) => {
                self.asked.remove_last();
                Err(AttachFail::Memory)
            }
        }
    }

    fn load(&mut self, config: &Config, room: u32) -> Result<(), RigFail> {
        self.end();
        let Ok(kept) = Kept::new(self.alloc, config, room) else {
            return Err(RigFail::Memory);
        };
        match self.board.set_up(config) {
            Ok(()) => {
                self.kept = Some(kept);
                self.loads = self.loads.saturating_add(1);
                Ok(())
            }
            Err(fail) => Err(fail),
        }
    }

    fn cycle(&mut self, drive: &PinBits, read: &mut PinBits) -> Result<(), RigFail> {
        let Some(mut kept) = self.kept.take() else {
            unreachable!()
        };
        let Ok(mut row) = kept.next_row(self.alloc, drive.len()) else {
            self.kept = Some(kept);
            return Err(RigFail::Memory);
        };
        match self.board.cycle(drive, &mut row.reading) {
            Ok(()) => {
                row.drive.copy_from(drive);
                read.copy_from(&row.reading);
                kept.add(row);
                self.kept = Some(kept);
                Ok(())
            }
            Err(_) => {
                self.past = self.past.and(&kept);
                Err(RigFail::Failed)
            }
        }
    }

    fn cycles(&mut self, drives: &[PinBits], reads: &mut [PinBits]) -> Result<(), RigFail> {
        let Some(mut kept) = self.kept.take() else {
            unreachable!()
        };
        let pins = kept.shape.pins();
        if kept.make_room(self.alloc, pins, drives.len()).is_err() {
            self.kept = Some(kept);
            return Err(RigFail::Memory);
        }
        match self.board.cycles(drives, reads) {
            Ok(()) => {
                kept.add_all(drives, reads);
                self.kept = Some(kept);
                Ok(())
            }
            Err(_) => {
                self.past = self.past.and(&kept);
                Err(RigFail::Failed)
            }
        }
    }

    fn loads(&self) -> u64 {
        self.loads
    }
}
