//! The rows of a network.

ghost use Rattle.std.specs.Prelude.{◌≡◌, ◌∷◌, List, Bool, length, IfOk, MatchOption};
ghost use Rattle.map_network.specs.Networks.{IsNetwork};
ghost use Rattle.map_eval.specs.Evals.{IsFirst, IsNotInOrder, RowsOn};
ghost use Rattle.map_eval.specs.Placing.{IsStandIn};
ghost use Rattle.map_eval.specs.States.{IsOrdered};

use crate::ordering::by_levels;
use crate::placing::{is_ordered, ordered_by};
use crate::running::{Running, run_cycle, running_for};
use map_network::{Network, copied_network};
use std::alloc::{AllocError, Global};
use std::marker::Model;

/// The most tables of a network that is run.
pub const MOST_TABLES: usize = 65_000;

/// A network that is run, vector by vector. Contracts see a network with the same rows, and what its latched tables give next.
#[derive(Drop)]
pub struct NetworkEval {
    run: Running,
}

impl Model for NetworkEval {
    ghost use Rattle.map_eval.specs.Evals.{NetworkState};
    ghost use Rattle.map_eval.specs.Runnings.{IsRunning};

    ghost Value = { NetworkState };

    ghost view = { λ e. record { network = e.run.plan.network; given = e.run.state.values.items } };

    ghost invariant = { λ e. IsRunning e.run };
}

impl NetworkEval {
    /// The network at its first cycle: its latched tables have their initial bits. None only where it has more than
    /// 65,000 tables, or a combinational table doesn't read tables before it, inputs and latched tables alone.
    ///
    /// # Errors
    ///
    /// Out of memory.
    pub fn start(alloc: Global, network: &Network) -> Result<Option<Self>, AllocError>
        requires { IsNetwork network.now }
        ensures { IfOk result (λ o. MatchOption o (IsNotInOrder network.now) (λ e. IsFirst network.now e)) }
    {
        if network.tables.as_slice().len() > MOST_TABLES {
            return Ok(None);
        }
        let Some(ordered) = in_order(alloc, network)? else {
            return Ok(None);
        };
        let run = running_for(alloc, ordered)?;
        Ok(Some(NetworkEval { run }))
    }

    /// Gives the row of a vector, which has one bit for each input; the row has one for each output. Then latched tables take
    /// what they read. Takes no memory.
    pub fn step(&mut self, vector: &[bool], row: &mut [bool])
        requires inputs { length vector.now ≡ self.old.network.inputs }
        requires outputs { length row.old ≡ length self.old.network.outputs }
        ensures network { self.new.network ≡ self.old.network }
        ensures len { length row.new ≡ length row.old }
        // Rows that go on from here are rows from before, behind this one.
        ensures rows { (vectors rows : List (List Bool)) →
            RowsOn self.new vectors rows → RowsOn self.old (vector.now ∷ vectors) (row.new ∷ rows) }
    {
        run_cycle(&mut self.run, vector, row);
    }
}

// A network in order with the same rows. None only where the network itself isn't in order.
fn in_order(alloc: Global, network: &Network) -> Result<Option<Network>, AllocError>
    requires { IsNetwork network.now }
    ensures { IfOk result (λ o. MatchOption o (IsOrdered network.now → ⊥) (IsStandIn network.now)) }
{
    let order = by_levels(alloc, network)?;
    if let Some(ordered) = ordered_by(alloc, network, &order)? {
        return Ok(Some(ordered));
    }
    if !is_ordered(network) {
        return Ok(None);
    }
    let copy = copied_network(alloc, network)?;
    Ok(Some(copy))
}
