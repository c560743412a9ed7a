//! A network in order, and what its signals lead to.

ghost use Rattle.std.specs.Prelude.{◌≡◌, ◌<◌, ◌≤◌, true, false, length, IfOk};
ghost use Rattle.map_eval.specs.Pins.{AreInRange};
ghost use Rattle.map_eval.specs.States.{IsOrdered, IsPlan, AreGates};

use crate::pins::{Pin, pins_of};
use crate::words::{WORD, mark_if};
use base_lists::Items;
use map_network::Network;
use std::alloc::{AllocError, Global};

/// A network of which each combinational table reads lower ones, inputs and latched tables alone.
#[derive(Drop)]
pub struct Plan {
    pub network: Network,
    /// For each signal the pins that read it.
    pub pins: Vec<Items<Pin>>,
    /// A bit for each combinational table, 64 to a word.
    pub gates: Vec<u64>,
}

fn one_unless(latched: bool) -> u64
    ensures few { result < 2 }
    ensures one { latched ≡ false → result ≡ 1 }
    ensures none { latched ≡ true → result ≡ 0 }
{
    if latched { 0 } else { 1 }
}

// Words with a bit for each combinational table.
fn gates_of(alloc: Global, network: &Network) -> Result<Vec<u64>, AllocError>
    requires { length network.now.tables ≤ 65536 }
    ensures { IfOk result (λ gates. AreGates network.now (length network.now.tables) gates.items) }
{
    let tables = network.tables.as_slice();
    let mut gates = vec![in alloc; 0; tables.len() / WORD + 1]?;
    'tables: for table in 0..tables.len() {
        mark_if(&mut gates, table, one_unless(tables[table].latched));
    }
    Ok(gates)
}

/// What a network in order needs for its rows.
pub fn plan_of(alloc: Global, network: Network) -> Result<Plan, AllocError>
    requires few { length network.tables ≤ 65536 }
    requires range { AreInRange network }
    requires ordered { IsOrdered network }
    ensures network { IfOk result (λ plan. plan.network ≡ network) }
    ensures plan { IfOk result (λ plan. IsPlan plan) }
{
    let pins = pins_of(alloc, &network)?;
    let gates = gates_of(alloc, &network)?;
    Ok(Plan {
        network,
        pins,
        gates,
    })
}
