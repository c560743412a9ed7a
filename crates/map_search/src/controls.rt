//! The control of a design's latches, as its text names it.

use crate::names::{is_plain_name, name_of, number_in};
use base_lists::Items;
use design_netlist::{Cover, LatchDef, Names, Netlist, NetlistData, PortDef};
use std::alloc::{AllocError, Global};

/// What is known of controls so far.
#[derive(Drop)]
enum Known {
    Nothing,
    One(Vec<u8>),
    /// There are several, or latches without, or models within models.
    Other,
}

/// The words of a line, of which the last is being read.
#[derive(Drop)]
struct Line {
    alloc: Global,
    words: Vec<Vec<u8>>,
    word: Vec<u8>,
    comment: bool,
    /// Whether the last byte was a backslash, so that the line goes on behind its end.
    goes_on: bool,
    known: Known,
}

// Whether a byte stands between words.
fn is_blank(byte: u8) -> bool {
    byte == b' ' || byte == b'\t' || byte == b'\r'
}

impl Line {
    // Ends a word.
    fn end_word(&mut self) -> Result<(), AllocError> {
        if self.word.len() > 0 {
            let word = std::mem::replace(&mut self.word, Vec::new(self.alloc));
            self.words.push(word)?;
        }
        Ok(())
    }

    // The word at a place of the line.
    fn at(&self, place: usize) -> &[u8] {
        match self.words.get(place) {
            Some(word) => word.as_slice(),
            None => b"",
        }
    }

    // Whether this is the control that latches have so far, if they have one.
    fn may_be(&self, control: &[u8]) -> bool {
        match &self.known {
            Known::Nothing => true,
            Known::One(known) => known.as_slice() == control,
            Known::Other => false,
        }
    }

    // What is known once a latch of this line is too.
    fn with_latch(&self) -> Result<Known, AllocError> {
        let control = self.at(4);
        if self.words.len() < 5 || control == b"NIL".as_slice() || !self.may_be(control) {
            return Ok(Known::Other);
        }
        let control = Vec::from_slice(self.alloc, control)?;
        Ok(Known::One(control))
    }

    // Notes what a line of these first words says of controls.
    fn note(&mut self) -> Result<(), AllocError> {
        if self.at(0) == b".latch".as_slice() {
            self.known = self.with_latch()?;
        } else if self.at(0) == b".subckt".as_slice() {
            self.known = Known::Other;
        }
        Ok(())
    }

    // Ends a line.
    fn end_line(&mut self) -> Result<(), AllocError> {
        self.end_word()?;
        self.note()?;
        self.words.clear();
        self.comment = false;
        Ok(())
    }

    // Reads a byte that isn't an end.
    fn add(&mut self, byte: u8) -> Result<(), AllocError> {
        if byte == b'#' {
            self.comment = true;
        }
        if self.comment || is_blank(byte) {
            return self.end_word();
        }
        self.word.push(byte)?;
        Ok(())
    }

    // Reads a byte.
    fn take(&mut self, byte: u8) -> Result<(), AllocError> {
        let goes_on = self.goes_on;
        self.goes_on = byte == b'\\' && !self.comment;
        if byte != b'\n' {
            return if self.goes_on { Ok(()) } else { self.add(byte) };
        }
        if goes_on {
            return self.end_word();
        }
        self.end_line()
    }
}

// The one control that all latches of a text have.
fn only_control(alloc: Global, text: &[u8]) -> Result<Option<Vec<u8>>, AllocError> {
    let mut line = Line {
        alloc,
        words: Vec::new(alloc),
        word: Vec::new(alloc),
        comment: false,
        goes_on: false,
        known: Known::Nothing,
    };
    'bytes: for byte in text {
        line.take(*byte)?;
    }
    line.end_line()?;
    match std::mem::replace(&mut line.known, Known::Nothing) {
        Known::One(control) => Ok(Some(control)),
        Known::Nothing | Known::Other => Ok(None),
    }
}

// Whether a signal has a name.
fn is_named(alloc: Global, names: &Names, signal: u32, name: &[u8]) -> Result<bool, AllocError> {
    let own = name_of(alloc, names, signal)?;
    Ok(own.as_slice() == name)
}

// Whether one of these signals has a name.
fn some_is(alloc: Global, names: &Names, signals: &[u32], name: &[u8]) -> Result<bool, AllocError> {
    'signals: for signal in signals {
        if is_named(alloc, names, *signal, name)? {
            return Ok(true);
        }
    }
    Ok(false)
}

// Adds the signals that covers drive.
fn add_covers(signals: &mut Vec<u32>, covers: &[Cover]) -> Result<(), AllocError> {
    'covers: for cover in covers {
        signals.push(cover.out)?;
    }
    Ok(())
}

// Adds the signals that latches drive.
fn add_latches(signals: &mut Vec<u32>, latches: &[LatchDef]) -> Result<(), AllocError> {
    'latches: for latch in latches {
        signals.push(latch.out)?;
    }
    Ok(())
}

// The signals that covers and latches drive.
fn driven(alloc: Global, draft: &NetlistData) -> Result<Vec<u32>, AllocError> {
    let mut signals = Vec::new(alloc);
    add_covers(&mut signals, draft.covers.as_slice())?;
    add_latches(&mut signals, draft.latches.as_slice())?;
    Ok(signals)
}

// Whether a cover or a latch drives the signal of a name.
fn is_driven(alloc: Global, draft: &NetlistData, name: &[u8]) -> Result<bool, AllocError> {
    let signals = driven(alloc, draft)?;
    some_is(alloc, &draft.names, &signals, name)
}

// The signals of inputs.
fn input_signals(alloc: Global, inputs: &[PortDef]) -> Result<Vec<u32>, AllocError> {
    let mut signals = Vec::with_capacity(alloc, inputs.len())?;
    'inputs: for port in inputs {
        signals.push(port.signal)?;
    }
    Ok(signals)
}

// Whether the signal of a name is an input.
fn is_input(alloc: Global, draft: &NetlistData, name: &[u8]) -> Result<bool, AllocError> {
    let signals = input_signals(alloc, draft.inputs.as_slice())?;
    some_is(alloc, &draft.names, &signals, name)
}

// Whether a new signal may have a name, or it can't be written anywhere.
fn is_taken(name: &[u8]) -> bool {
    number_in(name, b'm').is_some() || number_in(name, b'e').is_some() || !is_plain_name(name)
}

// Whether a control can stand in another text of the design: it is an input, or nothing drives it and no new signal has its name.
fn may_stand(alloc: Global, draft: &NetlistData, name: &[u8]) -> Result<bool, AllocError> {
    if is_input(alloc, draft, name)? {
        return Ok(true);
    }
    if is_taken(name) {
        return Ok(false);
    }
    let driven = is_driven(alloc, draft, name)?;
    Ok(!driven)
}

/// The name of the control that all latches of a design have by its text, if it can stand in another one.
///
/// # Errors
///
/// Out of memory.
pub fn control_of(
    alloc: Global,
    text: &[u8],
    netlist: &Netlist,
) -> Result<Option<Items<u8>>, AllocError> {
    match only_control(alloc, text)? {
        Some(control) => {
            if may_stand(alloc, netlist.parts(), &control)? {
                return Ok(Some(Items::new(control)));
            }
            Ok(None)
        }
        None => Ok(None),
    }
}
