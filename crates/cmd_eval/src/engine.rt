//! A design that is run, vector by vector.
ghost use Rattle.std.specs.Prelude.{◌≡◌, ◌∷◌, List, Bool, length, IfOk, IfSome};
ghost use Rattle.cmd_eval.specs.Runs.{IsFirstOf, IsNetworkOf, RowsLeft};

use design_eval::Eval;
use design_netlist::Netlist;
use map_eval::{MOST_TABLES, NetworkEval};
use map_network::{merge_tables, plain_size};
use std::alloc::{AllocError, Global};
use std::marker::Model;

/// What evaluates a design.
#[derive(Drop)]
pub enum Run<'a> {
    /// Cover by cover.
    Netlist(Eval<'a>),
    /// By a network with the same rows.
    Network(NetworkEval),
}

/// A design that is run. Contracts see the design, and what it is run by.
#[derive(Drop)]
pub struct DesignEval<'a> {
    netlist: &'a Netlist,
    run: Run<'a>,
}

impl<'a> Model for DesignEval<'a> {
    ghost use Rattle.cmd_eval.specs.Runs.{DesignState, IsRunOf};

    ghost Value = { DesignState };

    ghost view = { λ e. record { netlist = e.netlist.now; run = e.run } };

    ghost invariant = { λ e. IsRunOf e.netlist.now e.run };
}

// The design's merged network at its first cycle, if the design has latches and isn't too large, and the network is in order.
fn network_for(alloc: Global, netlist: &Netlist) -> Result<Option<NetworkEval>, AllocError>
    ensures { IfOk result (λ o. IfSome o (IsNetworkOf netlist.now)) }
{
    if netlist.parts().latches.as_slice().is_empty() {
        return Ok(None);
    }
    if plain_size(alloc, netlist)? > MOST_TABLES as u64 {
        return Ok(None);
    }
    let network = merge_tables(alloc, netlist)?;
    let started = NetworkEval::start(alloc, &network)?;
    Ok(started)
}

impl<'a> DesignEval<'a> {
    /// The design at its first cycle: its latches have their initial bits.
    pub fn start(alloc: Global, netlist: &'a Netlist) -> Result<Self, AllocError>
        ensures { IfOk result (λ e. IsFirstOf netlist.now e) }
    {
        if let Some(eval) = network_for(alloc, netlist)? {
            return Ok(DesignEval {
                netlist,
                run: Run::Network(eval),
            });
        }
        let eval = Eval::start(alloc, netlist)?;
        Ok(DesignEval {
            netlist,
            run: Run::Netlist(eval),
        })
    }

    /// Gives the row of a vector, which has one bit for each input; the row has one for each output. Then the latches take
    /// what they read. `ahead` is the text behind the vector's line, as far as it is known: the row is right whatever it says.
    /// Takes no memory.
    pub fn step_ahead(&mut self, vector: &[bool], ahead: &[u8], row: &mut [bool])
        requires inputs { length vector.now ≡ length self.old.netlist.inputs }
        requires outputs { length row.old ≡ length self.old.netlist.outputs }
        ensures netlist { self.new.netlist ≡ self.old.netlist }
        ensures len { length row.new ≡ length row.old }
        // Rows that go on from here are rows from before, behind this one.
        ensures rows { (vectors rows : List (List Bool)) →
            RowsLeft self.new.run vectors rows → RowsLeft self.old.run (vector.now ∷ vectors) (row.new ∷ rows) }
    {
        match &mut self.run {
            Run::Netlist(eval) => eval.step_ahead(vector, ahead, row),
            Run::Network(eval) => eval.step(vector, row),
        }
    }
}
