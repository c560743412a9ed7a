//! Which known wires give way, so that more tables are free.

use crate::choosing::{Chooser, Lack, set_wire, wire_of};
use crate::flags::{flag_at, in_set, set_flag};
use base_bits::BitSet;
use base_table::TABLE_PINS;
use machine_shape::{Meaning, Shape, Table, Wire};
use std::alloc::AllocError;

/// How many wires at most are marked again for each table that a further choice may free.
const WIRES_A_TABLE: usize = 400;

// What a wire is.
fn meaning_of(shape: &Shape, w: Wire) -> Option<Meaning> {
    if w.0 < shape.wires() {
        return Some(shape.meaning(w));
    }
    None
}

// Whether a wire is a pin of the machine.
fn is_machine_pin(shape: &Shape, w: Wire) -> bool {
    matches!(meaning_of(shape, w), Some(Meaning::Pin { .. }))
}

// The table of which a wire is a pin.
fn table_of(shape: &Shape, w: Wire) -> Option<Table> {
    match meaning_of(shape, w) {
        Some(Meaning::TablePin { table, .. }) => Some(table),
        _ => None,
    }
}

// Whether one of these was found unclear, so that it can't come to be known.
fn has_unclear(unclear: &BitSet, pins: &Vec<Wire>) -> bool {
    'pins: for pin in pins {
        if in_set(unclear, pin.0) {
            return true;
        }
    }
    false
}

impl Chooser {
    // The pins of a table that aren't known.
    fn lack_of(&self, table: Table) -> Result<Lack, AllocError> {
        let mut pins = Vec::new(self.alloc);
        'pins: for k in 0..TABLE_PINS {
            if table.0 < self.shape.tables() {
                let pin = self.shape.pin_of(table, k);
                if !self.knows(pin) {
                    pins.push(pin)?;
                }
            }
        }
        Ok(Lack { table, pins })
    }

    // Whether these are unfit or lost.
    fn are_lost(&self, pins: &Vec<Wire>) -> bool {
        'pins: for pin in pins {
            if !flag_at(&self.lost, pin.0) {
                return false;
            }
        }
        true
    }

    // A wire that was found to be shorted to a known one earlier is so to that, or to the one for which that gave way.
    pub(crate) fn recall(&mut self, w: Wire) -> Result<(), AllocError> {
        let Some(partner) = wire_of(&self.partner, w).or(wire_of(&self.heir, w)) else {
            return Ok(());
        };
        let partner = if self.knows(partner) {
            partner
        } else {
            wire_of(&self.heir, partner).unwrap_or(partner)
        };
        if self.knows(partner) {
            let mut wires = Vec::new(self.alloc);
            wires.push(partner)?;
            self.set_suspects(w, wires)?;
        }
        Ok(())
    }

    // Wants the pins of a table.
    fn want_lack(&mut self, lack: Lack) -> Result<(), AllocError> {
        'pins: for pin in &lack.pins {
            self.wanted.push(*pin)?;
            self.recall(*pin)?;
        }
        self.lacks.push(lack)?;
        Ok(())
    }

    // Whether the pins are wanted that a table lacks. The table is dead where they can't come to be known.
    fn is_lack_wanted(&mut self, lack: &Lack, unclear: &BitSet, wrong: &BitSet) -> bool {
        let t = lack.table.0;
        let lacks = !lack.pins.is_empty();
        let chosen = lacks && flag_at(&self.favoured, t);
        let dead = chosen || in_set(wrong, t) || has_unclear(unclear, &lack.pins);
        set_flag(&mut self.dead, t, dead);
        lacks && !dead && self.are_lost(&lack.pins)
    }

    // Wants the pins of a table, if it would be free if they were known.
    fn want_pins_of(
        &mut self,
        table: Table,
        unclear: &BitSet,
        wrong: &BitSet,
    ) -> Result<(), AllocError> {
        let lack = self.lack_of(table)?;
        if self.is_lack_wanted(&lack, unclear, wrong) {
            self.want_lack(lack)
        } else {
            Ok(())
        }
    }

    /// Wants the pins of tables that would be free if these were known.
    pub(crate) fn want_pins(&mut self, unclear: &BitSet, wrong: &BitSet) -> Result<(), AllocError> {
        self.lacks.clear();
        'tables: for t in 0..self.shape.tables() {
            self.want_pins_of(Table(t), unclear, wrong)?;
        }
        Ok(())
    }

    // The known wire to which one is shorted, as it seems.
    fn found_partner(&self, w: Wire) -> Option<Wire> {
        let suspects = self.suspects_of(w)?;
        if suspects.len() == 1 {
            return suspects.get(0).copied();
        }
        None
    }

    // Remembers to which known wires pins are shorted.
    fn note_partners(&mut self) {
        'wires: for at in 0..self.wanted.len() {
            if let Some(w) = self.wanted.get(at).copied() {
                let partner = self.found_partner(w);
                set_wire(&mut self.partner, w, partner);
            }
        }
    }

    // Whether a pin of a table can't come to be known, whatever gives way.
    fn is_hopeless(&self, table: Table, pin: Wire) -> bool {
        match wire_of(&self.partner, pin) {
            Some(partner) => {
                is_machine_pin(&self.shape, partner)
                    || table_of(&self.shape, partner) == Some(table)
            }
            None => !flag_at(&self.kept, pin.0),
        }
    }

    // Whether a table lacks a pin that can't come to be known.
    fn has_hopeless(&self, lack: &Lack) -> bool {
        'pins: for pin in &lack.pins {
            if self.is_hopeless(lack.table, *pin) {
                return true;
            }
        }
        false
    }

    // Marks the tables that can't be used.
    fn note_dead(&mut self) {
        'lacks: for at in 0..self.lacks.len() {
            if let Some(lack) = self.lacks.get(at) {
                let table = lack.table;
                if self.has_hopeless(lack) {
                    set_flag(&mut self.dead, table.0, true);
                }
            }
        }
    }

    // Whether a known wire may give way for a pin.
    fn may_give(&self, shape: &Shape, partner: Wire) -> bool {
        if flag_at(&self.given, partner.0) || is_machine_pin(shape, partner) {
            return false;
        }
        match table_of(shape, partner) {
            Some(table) => flag_at(&self.dead, table.0),
            None => true,
        }
    }

    // The known wires that would give way for these pins. None where one may not, or two want the same.
    fn partners_of(
        &self,
        shape: &Shape,
        pins: &Vec<Wire>,
    ) -> Result<Option<Vec<Wire>>, AllocError> {
        let mut partners: Vec<Wire> = Vec::new(self.alloc);
        'pins: for pin in pins {
            let Some(partner) = wire_of(&self.partner, *pin) else {
                return Ok(None);
            };
            if !self.may_give(shape, partner) || partners.contains(&partner) {
                return Ok(None);
            }
            partners.push(partner)?;
        }
        Ok(Some(partners))
    }

    // These give way for the pins at their places.
    fn give(&mut self, partners: &Vec<Wire>, pins: &Vec<Wire>) -> Result<(), AllocError> {
        'pins: for at in 0..pins.len() {
            if let (Some(partner), Some(pin)) = (partners.get(at).copied(), pins.get(at).copied()) {
                set_flag(&mut self.given, partner.0, true);
                set_wire(&mut self.heir, partner, Some(pin));
                self.first.push(pin)?;
            }
        }
        Ok(())
    }

    // Whether to each of these a known wire was found to which it is shorted.
    fn have_partners(&self, pins: &Vec<Wire>) -> bool {
        'pins: for pin in pins {
            if wire_of(&self.partner, *pin).is_none() {
                return false;
            }
        }
        true
    }

    // What the pins of a table are shorted to gives way, if it may. Else pins of the table may give way for others.
    fn try_give(&mut self, shape: &Shape, lack: &Lack) -> Result<(), AllocError> {
        if !self.have_partners(&lack.pins) {
            return Ok(());
        }
        match self.partners_of(shape, &lack.pins)? {
            Some(partners) => {
                self.gains.push(lack.table)?;
                self.give(&partners, &lack.pins)
            }
            None => {
                set_flag(&mut self.dead, lack.table.0, true);
                Ok(())
            }
        }
    }

    // The same of each table that lacks so many pins.
    fn give_for(
        &mut self,
        shape: &Shape,
        lacks: &Vec<Lack>,
        count: usize,
    ) -> Result<(), AllocError> {
        'lacks: for lack in lacks {
            if lack.pins.len() == count && !flag_at(&self.dead, lack.table.0) {
                self.try_give(shape, lack)?;
            }
        }
        Ok(())
    }

    // No wire gives way.
    fn forget_given(&mut self) {
        'wires: for at in 0..self.given.len() {
            if at < self.given.len() {
                self.given[at] = false;
            }
        }
    }

    // The known wires that stay. Pins of tables among them are hung first, if they should be lost with what gives way.
    fn wires_that_stay(&mut self) -> Result<BitSet, AllocError> {
        let mut stay = BitSet::new(self.alloc, self.shape.wires())?;
        'steps: for step in &self.steps {
            let w = step.wire;
            if flag_at(&self.given, w.0) {
                continue;
            }
            if w.0 < stay.len() {
                stay.insert(w.0);
            }
            if table_of(&self.shape, w).is_some() {
                self.first.push(w)?;
            }
        }
        Ok(stay)
    }

    // The wires to be marked again: those that gave way, and those that were unfit or lost, but the ones that stay unfit.
    fn note_again(&mut self, unclear: &BitSet) -> Result<(), AllocError> {
        self.again.clear();
        'wires: for at in 0..self.lost.len() {
            let w = u32::try_from(at).unwrap_or(u32::MAX);
            if (flag_at(&self.lost, w) || flag_at(&self.given, w)) && !in_set(unclear, w) {
                self.again.push(Wire(w))?;
            }
        }
        Ok(())
    }

    // Wires give way for these tables. None does a second time.
    fn note_favoured(&mut self) {
        'tables: for table in &self.gains {
            set_flag(&mut self.favoured, table.0, true);
        }
    }

    // Of tables with few pins to gain first, all that these are shorted to gives way.
    fn give_all(&mut self, shape: &Shape) -> Result<(), AllocError> {
        let lacks = std::mem::replace(&mut self.lacks, Vec::new(self.alloc));
        'counts: for count in 1..=TABLE_PINS {
            self.give_for(shape, &lacks, count as usize)?;
        }
        Ok(())
    }

    // Whether a choice is worth its loads: the first is, and a further one, if few wires are marked again for each table that it frees.
    fn is_worth_it(&self) -> bool {
        !self.has_chosen || self.again.len() <= self.gains.len().saturating_mul(WIRES_A_TABLE)
    }

    /// The known wires that stay, once others give way for pins of tables. None where none does. Which wires are kept was told.
    pub fn give_up(&mut self, unclear: &BitSet) -> Result<Option<BitSet>, AllocError> {
        let shape = self.shape;
        self.first.clear();
        self.forget_given();
        self.note_partners();
        self.note_dead();
        self.gains.clear();
        self.give_all(&shape)?;
        self.note_again(unclear)?;
        if self.first.is_empty() || !self.is_worth_it() {
            return Ok(None);
        }
        let stay = self.wires_that_stay()?;
        self.note_favoured();
        self.forget_suspects();
        self.has_chosen = true;
        Ok(Some(stay))
    }
}
