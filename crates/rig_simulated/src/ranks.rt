//! Ranks: each combinational table reads what has lower ranks than what it gives.

ghost use Rattle.std.specs.Prelude.{◌≡◌, ◌<◌, true, length, slice_index, All, IfOk};
ghost use Rattle.rig_simulated.specs.Settling.{IsWithin, IsRankedOrLatched, Settles};

use crate::gates::Gate;
use base_table::TABLE_INPUTS;
use std::alloc::AllocError;

/// With fewer ticks neither an order of the tables nor a list of readers saves anything.
pub const FEW_TICKS: u16 = 3;

/// When a table is evaluated: the tables come by their ranks.
#[derive(Clone, Copy, Debug, PartialEq, Eq, PartialOrd, Ord)]
pub struct Turn {
    pub rank: u16,
    /// The table's place in the list of those that are on.
    pub place: usize,
}

/// Makes the ranks of what a table reads and gives the lowest.
fn lower(ranks: &mut [u16], gate: Gate)
    requires { IsWithin (length ranks.old) gate }
    ensures { length ranks.new ≡ length ranks.old }
{
    ranks[gate.out as usize] = 0;
    'inputs: for j in 0..TABLE_INPUTS {
        ranks[gate.ins[j] as usize] = 0;
    }
}

/// Makes the ranks of all that tables read and give the lowest.
fn lower_all(ranks: &mut [u16], gates: &[Gate])
    requires { All (IsWithin (length ranks.old)) gates.now }
    ensures { length ranks.new ≡ length ranks.old }
{
    'gates: for i in 0..gates.len() {
        lower(ranks, gates[i]);
    }
}

/// One more than the highest rank that a table reads.
fn rank_above(ranks: &[u16], gate: Gate) -> u16
    requires { IsWithin (length ranks.now) gate }
{
    let mut highest = 0;
    'inputs: for j in 0..TABLE_INPUTS {
        let rank = ranks[gate.ins[j] as usize];
        if highest < rank {
            highest = rank;
        }
    }
    highest.saturating_add(1)
}

/// Raises the ranks of what tables give above what they read. Whether one would be too high.
fn raise_all(ranks: &mut [u16], gates: &[Gate], most: u16) -> bool
    requires { All (IsWithin (length ranks.old)) gates.now }
    ensures { length ranks.new ≡ length ranks.old }
{
    'gates: for i in 0..gates.len() {
        let gate = gates[i];
        if !gate.setting.latched {
            let rank = rank_above(ranks, gate);
            if rank > most {
                return true;
            }
            if rank > ranks[gate.out as usize] {
                ranks[gate.out as usize] = rank;
            }
        }
    }
    false
}

/// Whether a table is latched, or what it gives has a rank above what it reads, and not too high.
fn is_ranked(ranks: &[u16], gate: Gate, most: u16) -> bool
    requires { IsWithin (length ranks.now) gate }
    ensures { result ≡ true → IsRankedOrLatched (slice_index ranks.now) most gate }
{
    if gate.setting.latched {
        return true;
    }
    let rank = ranks[gate.out as usize];
    if rank > most {
        return false;
    }
    'inputs: for j in 0..TABLE_INPUTS {
        if ranks[gate.ins[j] as usize] >= rank {
            return false;
        }
    }
    true
}

/// Whether all tables are latched or ranked so.
fn are_ranked(ranks: &[u16], gates: &[Gate], most: u16) -> bool
    requires { All (IsWithin (length ranks.now)) gates.now }
    ensures { result ≡ true → All (IsRankedOrLatched (slice_index ranks.now) most) gates.now }
{
    'gates: for i in 0..gates.len() {
        if !is_ranked(ranks, gates[i], most) {
            return false;
        }
    }
    true
}

/// Ranks the tables, if no way through combinational tables is longer than the ticks.
fn rank_all(ranks: &mut [u16], gates: &[Gate], ticks: u16) -> bool
    requires { All (IsWithin (length ranks.old)) gates.now }
    ensures len { length ranks.new ≡ length ranks.old }
    ensures settles { result ≡ true → Settles gates.now ticks }
{
    lower_all(ranks, gates);
    'passes: for _n in 0..ticks {
        if are_ranked(ranks, gates, ticks) {
            return true;
        }
        if raise_all(ranks, gates, ticks) {
            return false;
        }
    }
    are_ranked(ranks, gates, ticks)
}

/// The places of the tables in the order of their ranks.
fn fill_turns(turns: &mut Vec<Turn>, ranks: &[u16], gates: &[Gate]) -> Result<(), AllocError>
    requires { All (IsWithin (length ranks.now)) gates.now }
{
    turns.clear();
    'gates: for i in 0..gates.len() {
        let gate = gates[i];
        let rank = if gate.setting.latched {
            0
        } else {
            ranks[gate.out as usize]
        };
        turns.push(Turn { rank, place: i })?;
    }
    turns.sort_unstable();
    Ok(())
}

/// Gives the tables their turns, if what they gave before doesn't matter after the ticks.
pub fn order_gates(
    turns: &mut Vec<Turn>,
    ranks: &mut [u16],
    gates: &[Gate],
    ticks: u16,
) -> Result<bool, AllocError>
    requires { All (IsWithin (length ranks.old)) gates.now }
    ensures len { length ranks.new ≡ length ranks.old }
    ensures settles { IfOk result (λ ranked. ranked ≡ true → Settles gates.now ticks) }
{
    if ticks < FEW_TICKS {
        return Ok(false);
    }
    let ranked = rank_all(ranks, gates, ticks);
    if ranked {
        fill_turns(turns, ranks, gates)?;
    }
    Ok(ranked)
}
