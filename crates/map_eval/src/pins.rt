//! Which pins each signal leads to.

ghost use Rattle.std.specs.Prelude.{◌≡◌, ◌+◌, ◌^◌, ◌<◌, ◌≤◌, ◌++◌, ◌∷◌, [], ℕ, length, IfOk, OnOk, slice_set};
ghost use Rattle.map_network.specs.Networks.{table_at};
ghost use Rattle.map_eval.specs.Pins.{ArePinsTo, ArePins, AreInRange, pins_at, signal_of};

use base_lists::Items;
use map_network::{Network, Source};
use std::alloc::{AllocError, Global};

/// A pin of a table, as its bit in the table's address.
#[derive(Clone, Copy, Debug)]
pub struct Pin {
    pub table: u16,
    pub bit: u8,
}

/// The number of a signal, of which the tables come first and then the inputs.
pub fn signal_of(tables: usize, source: Source) -> usize
    requires { tables ≤ 65536 }
    ensures { result ≡ signal_of tables source }
{
    match source {
        Source::Table(table) => table as usize,
        Source::Input(input) => tables + input as usize,
    }
}

fn add_pin(lists: &mut Vec<Items<Pin>>, signal: usize, pin: Pin) -> Result<(), AllocError>
    requires { signal < length lists.old.items }
    ensures { OnOk result (lists.new.items ≡ slice_set lists.old.items signal (pins_at lists.old.items signal ++ pin ∷ [])) }
{
    lists[signal].push(pin)?;
    Ok(())
}

// Adds each pin of a table to the list of what it reads.
fn add_pins(lists: &mut Vec<Items<Pin>>, network: &Network, table: usize) -> Result<(), AllocError>
    requires few { length network.now.tables ≤ 65536 }
    requires range { AreInRange network.now }
    requires within { table < length network.now.tables }
    requires pins { ArePinsTo network.now table 0 lists.old.items }
    ensures { OnOk result (ArePinsTo network.now (table + 1) 0 lists.new.items) }
{
    let tables = network.tables.as_slice();
    let ins = tables[table].ins.as_slice();
    'pins: for pin in 0..ins.len() {
        let bit = 1 << pin;
        add_pin(
            lists,
            signal_of(tables.len(), ins[pin]),
            Pin {
                table: table as u16,
                bit,
            },
        )?;
    }
    Ok(())
}

fn no_pins(alloc: Global, signals: usize) -> Result<Vec<Items<Pin>>, AllocError>
    ensures len { IfOk result (λ lists. length lists.items ≡ signals) }
    ensures none { IfOk result (λ lists. (s : ℕ) → pins_at lists.items s ≡ []) }
{
    let mut lists = Vec::with_capacity(alloc, signals)?;
    'signals: for _ in 0..signals {
        lists.push(Items::empty(alloc))?;
    }
    Ok(lists)
}

/// The pins that each signal leads to.
pub fn pins_of(alloc: Global, network: &Network) -> Result<Vec<Items<Pin>>, AllocError>
    requires few { length network.now.tables ≤ 65536 }
    requires range { AreInRange network.now }
    ensures { IfOk result (λ lists. ArePins network.now lists.items) }
{
    let tables = network.tables.as_slice().len();
    let mut lists = no_pins(alloc, tables + network.inputs as usize)?;
    'tables: for table in 0..tables {
        add_pins(&mut lists, network, table)?;
    }
    Ok(lists)
}
