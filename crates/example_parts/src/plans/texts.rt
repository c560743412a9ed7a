//! The texts of a case.

use std::alloc::{AllocError, Global};

/// The texts of a design and of a second one.
#[derive(Drop)]
pub struct Designs {
    pub first: Vec<u8>,
    pub second: Vec<u8>,
}

/// The texts of a machine, of its list of defects, and of designs.
#[derive(Drop)]
pub struct Texts {
    pub machine: Vec<u8>,
    pub defects: Vec<u8>,
    pub designs: Designs,
}

/// One of the texts.
#[derive(Clone, Copy)]
pub enum Part {
    Machine,
    Defects,
    Design,
    Second,
}

impl Texts {
    /// Nothing is said.
    pub fn new(alloc: Global) -> Texts {
        Texts {
            machine: Vec::new(alloc),
            defects: Vec::new(alloc),
            designs: Designs {
                first: Vec::new(alloc),
                second: Vec::new(alloc),
            },
        }
    }

    /// Forgets a text.
    pub fn clear(&mut self, alloc: Global, part: Part) {
        match part {
            Part::Machine => self.machine = Vec::new(alloc),
            Part::Defects => self.defects = Vec::new(alloc),
            Part::Design => self.designs.first = Vec::new(alloc),
            Part::Second => self.designs.second = Vec::new(alloc),
        }
    }

    /// Adds a line to a text.
    pub fn add(&mut self, part: Part, line: &str) -> Result<(), AllocError> {
        let text = match part {
            Part::Machine => &mut self.machine,
            Part::Defects => &mut self.defects,
            Part::Design => &mut self.designs.first,
            Part::Second => &mut self.designs.second,
        };
        text.extend_from_slice(line.as_bytes())?;
        text.push(b'\n')?;
        Ok(())
    }
}
