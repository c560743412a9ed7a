//! A machine that is asked step by step.
ghost use Rattle.std.specs.Prelude.{◌≡◌, All, IfOk, length};

use machine_config::{Config, Setting};
use machine_shape::{Cross, Pin, Shape, Table};
use rig::{AttachFail, PinBits, Rig, RigFail};
use std::alloc::{AllocError, Global};
use std::marker::Model;

/// How a step ended.
#[derive(Clone, Copy, Debug, PartialEq)]
pub enum Answer {
    Done,
    Failed,
    Memory,
    /// It isn't made: nothing is attached, or there is no session.
    NotMade,
}

impl Answer {
    /// Its word.
    pub fn word(self) -> &'static str {
        match self {
            Answer::Done => "done",
            Answer::Failed => "failed",
            Answer::Memory => "wants memory",
            Answer::NotMade => "isn't made",
        }
    }
}

fn answer_of(fail: RigFail) -> Answer {
    match fail {
        RigFail::Failed => Answer::Failed,
        RigFail::Memory => Answer::Memory,
    }
}

/// A rig, and what is set for its next load. Steps that it can't take aren't made.
#[derive(Drop)]
pub struct Talk<R: Rig> {
    rig: R,
    config: Config,
    attached: bool,
    runs: bool,
}

impl<R: Rig> Model for Talk<R> {
    ghost use Rattle.example_cases.specs.Talks.{Talking, IsUnderWay};

    ghost Value = { Talking R };

    ghost view = { λ t. record { rig = t.rig; shape = t.config.config.shape } };

    ghost invariant = { λ t. IsUnderWay t.config.config.shape t.attached t.runs (R.rig_state t.rig) };
}

// A row of pins: each 1 but those of which the text has a 0.
fn row_of(alloc: Global, pins: u32, text: &str) -> Result<PinBits, AllocError>
    ensures { IfOk result (λ row. length row ≡ pins) }
{
    let bytes = text.as_bytes();
    let mut row = PinBits::new(alloc, pins)?;
    'pins: for k in 0..pins {
        if bytes.get(k as usize) == Some(&b'0') {
            row.set(Pin(k), false);
        }
    }
    Ok(row)
}

// A digit for each pin.
fn put_row(text: &mut String, row: &PinBits) -> Result<(), AllocError> {
    text.push(' ')?;
    'bits: for bit in row.as_slice() {
        text.push(if *bit { '1' } else { '0' })?;
    }
    Ok(())
}

// Rows that are driven, and as many that are read.
#[derive(Drop)]
struct Rows {
    drives: Vec<PinBits>,
    reads: Vec<PinBits>,
}

fn rows_of(alloc: Global, pins: u32, texts: &str) -> Result<Rows, AllocError>
    ensures drives { IfOk result (λ r. All (λ row. length row ≡ pins) r.drives.items) }
    ensures reads { IfOk result (λ r. All (λ row. length row ≡ pins) r.reads.items) }
    ensures as_many { IfOk result (λ r. length r.drives.items ≡ length r.reads.items) }
{
    let mut drives = Vec::new(alloc);
    let mut reads = Vec::new(alloc);
    if texts.is_empty() {
        return Ok(Rows { drives, reads });
    }
    'rows: for text in texts.split(':') {
        let drive = row_of(alloc, pins, text)?;
        drives.push(drive)?;
        let read = PinBits::new(alloc, pins)?;
        reads.push(read)?;
    }
    Ok(Rows { drives, reads })
}

impl<R: Rig> Talk<R> {
    /// Over this rig, with nothing set for a machine of this shape.
    pub fn new(alloc: Global, rig: R, shape: Shape) -> Result<Self, AllocError> {
        Ok(Talk {
            rig,
            config: Config::with_room(alloc, shape, 0)?,
            attached: false,
            runs: false,
        })
    }

    /// Closes a crosspoint. False where there is none.
    pub fn close(&mut self, at: u32) -> Result<bool, AllocError> {
        if at >= self.config.shape().crosses() {
            return Ok(false);
        }
        self.config.close_cross(Cross(at))?;
        Ok(true)
    }

    /// Opens a crosspoint. False where there is none.
    pub fn open(&mut self, at: u32) -> bool {
        if at >= self.config.shape().crosses() {
            return false;
        }
        self.config.open_cross(Cross(at));
        true
    }

    /// Switches a table on, or off. False where there is none.
    pub fn set_table(&mut self, table: u32, setting: Option<Setting>) -> bool {
        if table >= self.config.shape().tables() {
            return false;
        }
        match setting {
            Some(setting) => self.config.switch_on(Table(table), setting),
            None => self.config.switch_off(Table(table)),
        }
        true
    }

    /// Sets the ticks of a cycle. False where there can't be so many.
    pub fn set_ticks(&mut self, ticks: u16) -> bool {
        if ticks < 1 || self.config.shape().most_ticks() < ticks {
            return false;
        }
        self.config.set_ticks(ticks);
        true
    }

    /// Attaches the machine.
    pub fn attach(&mut self, name: &str) -> Answer {
        self.attached = false;
        self.runs = false;
        let shape = self.config.shape();
        match self.rig.attach(&shape, name) {
            Ok(()) => {
                self.attached = true;
                Answer::Done
            }
            Err(AttachFail::Memory) => Answer::Memory,
            Err(_) => Answer::Failed,
        }
    }

    /// Loads what is set, with room for so many cycles.
    pub fn load(&mut self, room: u32) -> Answer {
        if !self.attached {
            return Answer::NotMade;
        }
        self.runs = false;
        match self.rig.load(&self.config, room) {
            Ok(()) => {
                self.runs = true;
                Answer::Done
            }
            Err(fail) => answer_of(fail),
        }
    }

    /// Makes a cycle with these pins driven 0, and puts what they read behind the text.
    pub fn cycle(
        &mut self,
        alloc: Global,
        drive: &str,
        text: &mut String,
    ) -> Result<Answer, AllocError> {
        if !self.runs {
            return Ok(Answer::NotMade);
        }
        let pins = self.config.shape().pins();
        let drive = row_of(alloc, pins, drive)?;
        let mut read = PinBits::new(alloc, pins)?;
        match self.rig.cycle(&drive, &mut read) {
            Ok(()) => {
                put_row(text, &read)?;
                Ok(Answer::Done)
            }
            Err(fail) => {
                self.runs = false;
                Ok(answer_of(fail))
            }
        }
    }

    /// Makes cycles by one call, as [`Talk::cycle`] does; a colon stands between two drives, and in an empty text there are none.
    pub fn cycles(
        &mut self,
        alloc: Global,
        drives: &str,
        text: &mut String,
    ) -> Result<Answer, AllocError> {
        if !self.runs {
            return Ok(Answer::NotMade);
        }
        let mut rows = rows_of(alloc, self.config.shape().pins(), drives)?;
        match self.rig.cycles(&rows.drives, &mut rows.reads) {
            Ok(()) => {
                'reads: for read in rows.reads.iter() {
                    put_row(text, read)?;
                }
                Ok(Answer::Done)
            }
            Err(fail) => {
                self.runs = false;
                Ok(answer_of(fail))
            }
        }
    }
}
