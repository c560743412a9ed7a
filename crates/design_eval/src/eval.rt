//! The rows of a netlist.

ghost use Rattle.std.specs.Prelude.{◌≡◌, ◌<◌, length, map, IfOk};
ghost use Rattle.design_eval.specs.Evals.{first_eval, IsStep};
ghost use Rattle.design_eval.specs.Bits.{AreReady};
ghost use Rattle.design_netlist.specs.Valuations.{bit_at};
ghost use Rattle.design_eval.specs.Latches.{HaveBits};
ghost use Rattle.design_eval.specs.Marks.{AreTaken};
ghost use Rattle.design_eval.specs.Plans.{IsPlan, IsMarked, AllHold};

use crate::bits::{put_bits, read_bits};
use crate::block::{Block, give_ahead, no_vectors};
use crate::latches::{Giving, Taking, put_changed, take_changed};
use crate::marks::{TurnPlan, put_marked, settle_marked};
use crate::plan::{Plan, plan_of};
use crate::readers::MOST;
use crate::turns::settle;
use design_netlist::{LatchDef, Netlist};
use std::alloc::{AllocError, Global};
use std::marker::Model;

/// The most vectors that are evaluated without marks in a row, after vectors that changed more than a quarter of the
/// covers: marks cost about four times as much as an evaluation.
const VECTORS_WITHOUT_MARKS: u32 = 255;

/// How many words of hints there are: one for each 64 turns.
const WORDS: usize = 1_024;

/// A design that is run, vector by vector. Contracts see the design and what its latches give next.
#[derive(Drop)]
pub struct Eval<'a> {
    netlist: &'a Netlist,
    plan: Plan,
    /// The bits of all signals; those that nothing drives stay 0.
    values: Vec<bool>,
    /// By turns: a cover that isn't marked has the truth of its inputs' bits.
    marks: Vec<bool>,
    /// Where marks may be.
    hints: Vec<u64>,
    /// What the latches give next.
    state: Vec<bool>,
    /// What the latches gave last.
    last: Vec<bool>,
    /// How many vectors are evaluated without marks next.
    unmarked: u32,
    /// How many are evaluated without marks after the next vector that changes many covers.
    streak: u32,
    /// The last vectors that were evaluated at once.
    block: Block,
}

impl<'a> Model for Eval<'a> {
    ghost use Rattle.design_eval.specs.Evals.{EvalState};
    ghost use Rattle.design_eval.specs.Bits.{AreReady};
    ghost use Rattle.design_eval.specs.Plans.{IsPlan, IsMarked, IsHeld};
    ghost use Rattle.design_eval.specs.Blocks.{IsBlock};

    ghost Value = { EvalState };

    ghost view = { λ e. record { netlist = e.netlist.now; state = e.state.items } };

    ghost invariant = { λ e. IsPlan e.netlist.now e.plan × AreReady e.netlist.now e.values.items e.state.items
        × IsMarked e.netlist.now e.plan e.marks.items e.values.items
        × IsHeld e.plan e.hints.items e.marks.items e.last.items e.state.items e.values.items × IsBlock e.netlist.now e.block };
}

impl<'a> Eval<'a> {
    /// The design at its first cycle: its latches have their initial bits.
    pub fn start(alloc: Global, netlist: &'a Netlist) -> Result<Self, AllocError>
        ensures { IfOk result (λ e. e ≡ first_eval netlist.now) }
    {
        let draft = netlist.parts();
        let plan = plan_of(alloc, netlist)?;
        let values = vec![in alloc; false; draft.names.len()]?;
        let marks = vec![in alloc; true; MOST as usize]?;
        let hints = vec![in alloc; u64::MAX; WORDS]?;
        let state = first_bits(alloc, draft.latches.as_slice())?;
        let last = vec![in alloc; false; draft.latches.as_slice().len()]?;
        let block = no_vectors(alloc, netlist)?;
        Ok(Eval {
            netlist,
            plan,
            values,
            marks,
            hints,
            state,
            last,
            unmarked: 0,
            streak: 0,
            block,
        })
    }

    /// Gives the row of a vector as [`Eval::step`] does. `ahead` is the text behind the vector's line, as far as it
    /// is known: where a design has no latches, the vectors that it seems to have are evaluated at once with this
    /// one. It is a guess, and the row is right whatever it says. Takes no memory.
    pub fn step_ahead(&mut self, vector: &[bool], ahead: &[u8], out: &mut [bool])
        requires inputs { length vector.now ≡ length self.old.netlist.inputs }
        requires outputs { length out.old ≡ length self.old.netlist.outputs }
        ensures { IsStep self.old vector.now out.new self.new }
    {
        let given = give_ahead(
            &mut self.block,
            self.netlist,
            &self.plan,
            vector,
            ahead,
            out,
        );
        if !given {
            self.step(vector, out);
        }
    }

    /// Gives the row of a vector, which has one bit for each input; the row has one for each output. Then the
    /// latches take what they read. Takes no memory.
    pub fn step(&mut self, vector: &[bool], out: &mut [bool])
        requires inputs { length vector.now ≡ length self.old.netlist.inputs }
        requires outputs { length out.old ≡ length self.old.netlist.outputs }
        ensures { IsStep self.old vector.now out.new self.new }
    {
        if self.unmarked > 0 {
            self.unmarked -= 1;
            run(
                self.netlist,
                &self.plan,
                &mut self.values,
                &mut self.last,
                &mut self.state,
                vector,
                out,
            );
            return;
        }
        let busy = run_marked(
            self.netlist,
            &self.plan,
            &mut self.marks,
            &mut self.hints,
            &mut self.values,
            &mut self.last,
            &mut self.state,
            vector,
            out,
        );
        plan_streak(&mut self.unmarked, &mut self.streak, busy);
    }
}

// After a vector that changed much some are evaluated without marks, and more of them each time.
fn plan_streak(unmarked: &mut u32, streak: &mut u32, busy: bool) {
    if !busy {
        *streak = 0;
        return;
    }
    *unmarked = *streak;
    *streak = longer(*streak);
}

// The next streak of vectors that are evaluated without marks.
fn longer(streak: u32) -> u32 {
    if streak >= VECTORS_WITHOUT_MARKS {
        return VECTORS_WITHOUT_MARKS;
    }
    2 * streak + 1
}

// Gives the row of a vector and the next state, and evaluates all covers.
fn run(
    netlist: &Netlist,
    plan: &Plan,
    values: &mut [bool],
    last: &mut [bool],
    state: &mut [bool],
    vector: &[bool],
    out: &mut [bool],
)
    requires plan { IsPlan netlist.now plan.now }
    requires ready { AreReady netlist.now values.old state.old }
    requires last { length last.old ≡ length state.old }
    requires inputs { length vector.now ≡ length netlist.now.inputs }
    requires outputs { length out.old ≡ length netlist.now.outputs }
    ensures ready { AreReady netlist.now values.new state.new }
    ensures given { HaveBits plan.now.wiring.drives.items last.new values.new }
    ensures next { state.new ≡ map (bit_at values.new) plan.now.wiring.reads.items }
    ensures hold { AllHold netlist.now values.new }
    ensures step { IsStep (record { netlist = netlist.now; state = state.old }) vector.now out.new
        (record { netlist = netlist.now; state = state.new }) }
{
    let draft = netlist.parts();
    put_bits(values, &plan.wiring.inputs, vector);
    put_bits(values, &plan.wiring.drives, state);
    last.copy_from_slice(state);
    settle(&plan.turns, draft.covers.as_slice(), values);
    read_bits(values, &plan.wiring.outputs, out);
    read_bits(values, &plan.wiring.reads, state);
}

// Gives the row of a vector and the next state, evaluates the covers that are marked, and says whether they were
// more than a quarter.
fn run_marked(
    netlist: &Netlist,
    plan: &Plan,
    marks: &mut [bool],
    hints: &mut [u64],
    values: &mut [bool],
    last: &mut [bool],
    state: &mut [bool],
    vector: &[bool],
    out: &mut [bool],
) -> bool
    requires plan { IsPlan netlist.now plan.now }
    requires ready { AreReady netlist.now values.old state.old }
    requires marked { IsMarked netlist.now plan.now marks.old values.old }
    requires hints { length hints.old ≡ 1024 }
    requires last { length last.old ≡ length state.old }
    requires given { HaveBits plan.now.wiring.drives.items last.old values.old }
    requires taken { AreTaken (length plan.now.turns.items) plan.now.wiring.reads.items state.old marks.old values.old }
    requires inputs { length vector.now ≡ length netlist.now.inputs }
    requires outputs { length out.old ≡ length netlist.now.outputs }
    ensures ready { AreReady netlist.now values.new state.new }
    ensures given { HaveBits plan.now.wiring.drives.items last.new values.new }
    ensures next { state.new ≡ map (bit_at values.new) plan.now.wiring.reads.items }
    ensures marked { IsMarked netlist.now plan.now marks.new values.new }
    ensures step { IsStep (record { netlist = netlist.now; state = state.old }) vector.now out.new
        (record { netlist = netlist.now; state = state.new }) }
{
    let draft = netlist.parts();
    put_marked(
        &plan.readers,
        &plan.wiring.inputs,
        vector,
        marks,
        hints,
        values,
    );
    put_changed(
        &Giving {
            drives: &plan.wiring.drives,
            state: &*state,
            readers: &plan.readers,
        },
        last,
        marks,
        hints,
        values,
    );
    let count = settle_marked(
        &TurnPlan {
            turns: &plan.turns,
            quicks: &plan.quicks,
            covers: draft.covers.as_slice(),
            readers: &plan.readers,
        },
        marks,
        hints,
        values,
    );
    read_bits(values, &plan.wiring.outputs, out);
    take_changed(
        &Taking {
            reads: &plan.wiring.reads,
            first: plan.turns.len(),
            values: &*values,
        },
        marks,
        hints,
        state,
    );
    count > plan.turns.len() / 4
}

// The bits that latches have at first.
fn first_bits(alloc: Global, latches: &[LatchDef]) -> Result<Vec<bool>, AllocError>
    ensures { IfOk result (λ v. v.items ≡ map (λ l. l.init) latches.now) }
{
    latches.iter().map(|l| l.init).collect(alloc)
}
