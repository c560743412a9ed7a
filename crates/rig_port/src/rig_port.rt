//! A rig as the other end of a port.
ghost use Rattle.std.specs.Prelude.{◌≡◌, ◌+◌, ◌^◌, ◌<◌, ◌≤◌, [], true, false, List, length, take, None, Some, All};
ghost use Rattle.std.specs.Prelude.{option_map, IfOk, IfErr, IfSome, IsTrue, OnOk, OnErr, IsErrOf};
ghost use Rattle.machine_shape.specs.Shape.{pins_of};
ghost use Rattle.machine_meaning.specs.Circuit.{Pins};
ghost use Rattle.machine_config.specs.Configuration.{Configuration, cleared};
ghost use Rattle.base_io.specs.Counts.{Rose};
ghost use Rattle.rig.specs.Rig.{Attaches, shape_of, config_of, cycles_of};
ghost use Rattle.rig_board.specs.Device.{WhereTold};
ghost use Rattle.rig_port.specs.Lines.{AreCounts, counts_body, counts_line, reading_body};
ghost use Rattle.rig_port.specs.Checks.{fresh_check, after};
ghost use Rattle.rig_port.specs.Requests.{IsEditOf, edited, edited_by};
ghost use Rattle.rig_port.specs.Answers.{Answers};
ghost use Rattle.rig_port.specs.Ports.{machine_told, Opens, AskFails};
ghost use Rattle.rig_port.specs.RigPorts.{edit_of, edits_of, wanted_body, wanted_line, IsWantedOf, rig_port_state, IsReady};
ghost use Rattle.rig_port.specs.Transcripts.{and_sent};
ghost use Rattle.rig_port.specs.RigPorts.{IsNoRequest, IsShort, IsDriven, IsAnswered, start_from};

use crate::again::blank_rows;
use crate::check::Check;
use crate::parse::read_request;
use crate::port::{Port, PortFail};
use crate::port_log::PortLog;
use crate::respell::{make_room, read_attach, spelled_check};
use crate::spelling::{put_counts, put_readings};
use crate::wanted::{Asked, Change, Wanted};
use machine_config::Config;
use machine_shape::Shape;
use rig::{AttachFail, PinBits, Rig};
use std::alloc::{AllocError, Global};
use std::marker::Model;

/// A rig of a shape as the other end of a port: it takes the four requests, and tells the machine that its rig tells.
///
/// What it answers comes from loads and cycles of its rig. A request that isn't spelled, byte by byte, as one of the four fails, and
/// doesn't reach the rig; nor does one for whose answer there is no room. It takes memory for its rig, so one that is right may fail
/// where memory is lacking: no clause says when it is answered.
#[derive(Drop)]
pub struct RigPort<R: Rig> {
    alloc: Global,
    inner: R,
    shape: Shape,
    // What is set, while the port is open, and whether it was loaded.
    set: Option<Config>,
    running: bool,
    check: Check,
    talk: PortLog,
    failures: u64,
}

impl<R: Rig> Model for RigPort<R> {
    ghost use Rattle.std.specs.Prelude.{option_map, IfSome};
    ghost use Rattle.rig_port.specs.RigPorts.{RigEnd, IsReady};

    ghost Value = { RigEnd R };

    ghost use Rattle.std.specs.Coded.{codes};
    ghost use Rattle.machine_config.specs.Configuration.{coded_configuration};
    ghost use Rattle.rig_port.specs.Said.{coded_port_talk};

    ghost coded = { Prim.hlevel (codes, coded_configuration, coded_port_talk) };

    ghost view = { λ p. record {
      inner = p.inner;
      shape = p.shape;
      set = option_map (λ g. g.config) p.set;
      running = p.running;
      check = p.check;
      talk = p.talk;
      failures = p.failures;
    } };

    ghost invariant = { λ p. IfSome p.set (λ g. IsReady p.shape g.config p.running (R.rig_state p.inner)) };
}

// Makes a change.
fn make(set: &mut Config, change: Change) -> Result<(), AllocError>
    requires { IsEditOf set.old.config.shape (edit_of change) }

    ensures shape { set.new.config.shape ≡ set.old.config.shape }
    ensures made { OnOk result (set.new.config ≡ edited_by set.old.config (edit_of change)) }
{
    match change {
        Change::Close(c) => set.close_cross(c)?,
        Change::Open(c) => set.open_cross(c),
        Change::On(t, s) => set.switch_on(t, s),
        Change::Off(t) => set.switch_off(t),
        Change::Ticks(n) => set.set_ticks(n),
    }
    Ok(())
}

// Makes changes in their order.
fn make_all(set: &mut Config, changes: &[Change]) -> Result<(), AllocError>
    requires { All (λ c. IsEditOf set.old.config.shape (edit_of c)) changes.now }

    ensures shape { set.new.config.shape ≡ set.old.config.shape }
    ensures made { OnOk result (set.new.config ≡ edited set.old.config (edits_of changes.now)) }
{
    'changes: for k in 0..changes.len() {
        make(set, changes[k])?;
    }
    Ok(())
}

// Drives the rig, reads into these rows, and spells what its pins read; answers the check behind it. `None` where that fails.
fn drive_rows<R: Rig>(
    inner: &mut R,
    shape: &Shape,
    drives: &[PinBits],
    reads: &mut [PinBits],
    asked: Check,
    line: &mut Vec<u8>,
) -> Option<Check>
    requires session { option_map (λ g. g.shape) (config_of (R.rig_state inner.old)) ≡ Some shape.now }
    requires wide { All (λ row. length row ≡ pins_of shape.now) drives.now }
    requires wide_too { All (λ row. length row ≡ pins_of shape.now) reads.old }
    requires as_many { length drives.now ≡ length reads.old }
    requires empty { line.old.items ≡ [] }

    ensures machine { (R.rig_state inner.new).machine ≡ (R.rig_state inner.old).machine }
    ensures driven { IfSome result (λ now. (g : Configuration) → config_of (R.rig_state inner.old) ≡ Some g →
        IsDriven asked (pins_of shape.now) g (cycles_of (R.rig_state inner.old)) drives.now line.new.items now (R.rig_state inner.new)) }
{
    let Ok(()) = inner.cycles(drives, reads) else {
        return None;
    };
    let Ok(()) = make_room(line, reads) else {
        return None;
    };
    Some(put_readings(line, asked, reads))
}

// Drives the rig, and spells what its pins read; answers the check behind it. `None` where that fails.
fn drive<R: Rig>(
    alloc: Global,
    inner: &mut R,
    shape: &Shape,
    drives: &[PinBits],
    asked: Check,
    line: &mut Vec<u8>,
) -> Option<Check>
    requires session { option_map (λ g. g.shape) (config_of (R.rig_state inner.old)) ≡ Some shape.now }
    requires wide { All (λ row. length row ≡ pins_of shape.now) drives.now }
    requires empty { line.old.items ≡ [] }

    ensures machine { (R.rig_state inner.new).machine ≡ (R.rig_state inner.old).machine }
    ensures driven { IfSome result (λ now. (g : Configuration) → config_of (R.rig_state inner.old) ≡ Some g →
        IsDriven asked (pins_of shape.now) g (cycles_of (R.rig_state inner.old)) drives.now line.new.items now (R.rig_state inner.new)) }
{
    let Ok(mut reads) = blank_rows(alloc, shape.pins(), drives.len()) else {
        return None;
    };
    let now = drive_rows(inner, shape, drives, &mut reads, asked, line)?;
    Some(now)
}

// Loads a configuration and drives the rig; answers the check behind what is read. `None` where that fails.
fn load_and_drive<R: Rig>(
    alloc: Global,
    inner: &mut R,
    set: &Config,
    drives: &[PinBits],
    asked: Check,
    line: &mut Vec<u8>,
) -> Option<Check>
    requires attached { shape_of (R.rig_state inner.old) ≡ Some set.now.config.shape }
    requires wide { All (λ row. length row ≡ pins_of set.now.config.shape) drives.now }
    requires empty { line.old.items ≡ [] }

    ensures machine { (R.rig_state inner.new).machine ≡ (R.rig_state inner.old).machine }
    ensures driven { IfSome result (λ now. IsDriven asked (pins_of set.now.config.shape) set.now.config [] drives.now line.new.items now
        (R.rig_state inner.new)) }
{
    let shape = set.shape();
    let room = u32::try_from(drives.len()).unwrap_or(u32::MAX);
    let Ok(()) = inner.load(set, room) else {
        return None;
    };
    let now = drive(alloc, inner, &shape, drives, asked, line)?;
    Some(now)
}

// Clears what is set where all is set anew.
fn start(set: &mut Config, anew: bool)
    ensures { set.new.config ≡ start_from anew set.old.config }
{
    if anew {
        set.clear();
    }
}

// Makes the changes of a load, loads and drives; answers the check behind what is read. `None` where that fails.
fn answer_load<R: Rig>(
    alloc: Global,
    inner: &mut R,
    set: &mut Config,
    wanted: &Wanted,
    asked: Check,
    line: &mut Vec<u8>,
) -> Option<Check>
    requires attached { shape_of (R.rig_state inner.old) ≡ Some set.old.config.shape }
    requires wanted { IsWantedOf set.old.config.shape wanted.now }
    requires empty { line.old.items ≡ [] }

    ensures machine { (R.rig_state inner.new).machine ≡ (R.rig_state inner.old).machine }
    ensures shape { set.new.config.shape ≡ set.old.config.shape }
    ensures set { IfSome result (λ _.
        set.new.config ≡ edited (start_from wanted.now.anew set.old.config) (edits_of wanted.now.changes.items)) }
    ensures driven { IfSome result (λ now. IsDriven asked (pins_of set.old.config.shape) set.new.config [] wanted.now.drives.items
        line.new.items now (R.rig_state inner.new)) }
{
    start(set, wanted.anew);
    if make_all(set, &wanted.changes).is_err() {
        return None;
    }
    let now = load_and_drive(alloc, inner, set, &wanted.drives, asked, line)?;
    Some(now)
}

// Whether something runs, the check behind a request or before it, and how many bytes a reply has room for.
#[derive(Clone, Copy)]
struct Standing {
    running: bool,
    check: Check,
    room: usize,
}

// What a request leaves: whether something runs then, and the check behind the reply.
#[derive(Clone, Copy)]
struct Left {
    running: bool,
    check: Check,
}

// Clears what is set, and says what the machine is; answers the check behind it. `None` where memory is lacking, or the line is longer
// than the room.
fn answer_attach(set: &mut Config, asked: Asked, room: usize, line: &mut Vec<u8>) -> Option<Check>
    requires empty { line.old.items ≡ [] }

    ensures cleared { set.new.config ≡ cleared set.old.config.shape }
    ensures line { IfSome result (λ now. (line.new.items ≡ counts_line asked.check asked.number set.old.config.shape.counts)
        × (now ≡ after asked.check (counts_body asked.number set.old.config.shape.counts))) }
    ensures room { IfSome result (λ _. length line.new.items ≤ room) }
{
    let shape = set.shape();
    set.clear();
    let Ok(now) = put_counts(line, asked.check, asked.number, shape.counts()) else {
        return None;
    };
    if line.len() <= room { Some(now) } else { None }
}

// Answers what a request asks, and what it leaves. `None` where that fails.
fn answer_wanted<R: Rig>(
    alloc: Global,
    inner: &mut R,
    set: &mut Config,
    standing: Standing,
    wanted: &Wanted,
    line: &mut Vec<u8>,
) -> Option<Left>
    requires ready { IsReady set.old.config.shape set.old.config standing.running (R.rig_state inner.old) }
    requires wanted { IsWantedOf set.old.config.shape wanted.now }
    requires empty { line.old.items ≡ [] }

    ensures machine { (R.rig_state inner.new).machine ≡ (R.rig_state inner.old).machine }
    ensures ready { IfSome result (λ left. IsReady set.old.config.shape set.new.config left.running (R.rig_state inner.new)) }
    ensures told { IfSome result (λ left. (c : Check) → standing.check ≡ after c (wanted_body wanted.now) →
        IsAnswered set.old.config.shape c (wanted_line c wanted.now) line.new.items left.check set.old.config standing.running
        (R.rig_state inner.old) set.new.config left.running (R.rig_state inner.new)) }
{
    if wanted.loads {
        let loaded = answer_load(alloc, inner, set, wanted, standing.check, line)?;
        return Some(Left {
            running: true,
            check: loaded,
        });
    }
    if !standing.running {
        return None;
    }
    let shape = set.shape();
    let driven = drive(alloc, inner, &shape, &wanted.drives, standing.check, line)?;
    Some(Left {
        running: true,
        check: driven,
    })
}

// The number, or one in place of none.
fn at_least_one(n: usize) -> usize
    ensures some { 1 ≤ result }
    ensures more { n ≤ result }
{
    if n == 0 { 1 } else { n }
}

// Whether there is room for a line of so many readings, whatever they are.
fn has_room(room: usize, pins: u32, count: usize) -> bool
    ensures { IsTrue result → (rows : List Pins) → length rows ≡ count → All (λ row. length row ≡ pins) rows →
        length (reading_body rows) + 6 ≤ room }
{
    let word = pins.div_ceil(8) as usize * 2 + 1;
    let Some(words) = count.checked_mul(word) else {
        return false;
    };
    let Some(whole) = at_least_one(words).checked_add(6) else {
        return false;
    };
    whole <= room
}

// Answers what is asked, byte by byte spelled, behind this check. `None` where the room is short, or that fails; where it is short,
// nothing reaches the rig.
fn answer_spelled<R: Rig>(
    alloc: Global,
    inner: &mut R,
    set: &mut Config,
    standing: Standing,
    wanted: &Wanted,
    line: &mut Vec<u8>,
) -> Option<Left>
    requires ready { IsReady set.old.config.shape set.old.config standing.running (R.rig_state inner.old) }
    requires wanted { IsWantedOf set.old.config.shape wanted.now }
    requires empty { line.old.items ≡ [] }

    ensures machine { (R.rig_state inner.new).machine ≡ (R.rig_state inner.old).machine }
    ensures ready { IfSome result (λ left. IsReady set.old.config.shape set.new.config left.running (R.rig_state inner.new)) }
    ensures told { IfSome result (λ left. (c : Check) → standing.check ≡ after c (wanted_body wanted.now) →
        IsAnswered set.old.config.shape c (wanted_line c wanted.now) line.new.items left.check set.old.config standing.running
        (R.rig_state inner.old) set.new.config left.running (R.rig_state inner.new)) }
    ensures short { (c : Check) → IsShort set.old.config.shape c (wanted_line c wanted.now) standing.room →
        R.rig_state inner.new ≡ R.rig_state inner.old }
    ensures fits { IfSome result (λ _. (c : Check) → IsShort set.old.config.shape c (wanted_line c wanted.now) standing.room → ⊥) }
{
    let shape = set.shape();
    if !has_room(standing.room, shape.pins(), wanted.drives.len()) {
        return None;
    }
    let left = answer_wanted(alloc, inner, set, standing, wanted, line)?;
    Some(left)
}

// Answers a request, byte by byte spelled as the four forms are, and what it leaves. `None` where it isn't so spelled, or the room is
// short, or that fails; what isn't so spelled, or for whose line the room is short, doesn't reach the rig.
#[tactic(auto, using(crate::proofs::Answered::no_wanted))]
fn answer<R: Rig>(
    alloc: Global,
    inner: &mut R,
    set: &mut Config,
    standing: Standing,
    request: &[u8],
    line: &mut Vec<u8>,
) -> Option<Left>
    requires ready { IsReady set.old.config.shape set.old.config standing.running (R.rig_state inner.old) }
    requires empty { line.old.items ≡ [] }

    ensures machine { (R.rig_state inner.new).machine ≡ (R.rig_state inner.old).machine }
    ensures ready { IfSome result (λ left. IsReady set.old.config.shape set.new.config left.running (R.rig_state inner.new)) }
    ensures told { IfSome result (λ left. IsAnswered set.old.config.shape standing.check request.now line.new.items left.check
        set.old.config standing.running (R.rig_state inner.old) set.new.config left.running (R.rig_state inner.new)) }
    ensures unreached { IsNoRequest set.old.config.shape standing.check request.now → R.rig_state inner.new ≡ R.rig_state inner.old }
    ensures other { IfSome result (λ _. IsNoRequest set.old.config.shape standing.check request.now → ⊥) }
    ensures short { IsShort set.old.config.shape standing.check request.now standing.room →
        R.rig_state inner.new ≡ R.rig_state inner.old }
    ensures fits { IfSome result (λ _. IsShort set.old.config.shape standing.check request.now standing.room → ⊥) }
{
    if let Some(asked) = read_attach(alloc, request) {
        let counted = answer_attach(set, asked, standing.room, line)?;
        return Some(Left {
            running: false,
            check: counted,
        });
    }
    let shape = set.shape();
    let Ok(wanted) = read_request(alloc, request, &shape) else {
        return None;
    };
    let check = spelled_check(alloc, request, standing.check, &wanted)?;
    let sent = Standing {
        running: standing.running,
        check,
        room: standing.room,
    };
    let left = answer_spelled(alloc, inner, set, sent, &wanted, line)?;
    Some(left)
}

// What came to the front of a reply, and what the request left.
#[derive(Clone, Copy)]
struct Replied {
    count: usize,
    left: Left,
}

// Puts a line to the front of a reply, if there is room for it.
fn put_reply(line: &[u8], reply: &mut [u8]) -> Option<usize>
    ensures length { length reply.new ≡ length reply.old }
    ensures within { IfSome result (λ n. n ≤ length reply.new) }
    ensures line { IfSome result (λ n. take n reply.new ≡ line.now) }
{
    if line.len() > reply.len() {
        return None;
    }
    'bytes: for k in 0..line.len() {
        reply[k] = line[k];
    }
    Some(line.len())
}

// Answers a request to the front of a reply. None where it is none of the four, or that fails.
fn reply_to<R: Rig>(
    alloc: Global,
    inner: &mut R,
    set: &mut Config,
    before: Left,
    request: &[u8],
    reply: &mut [u8],
) -> Option<Replied>
    requires ready { IsReady set.old.config.shape set.old.config before.running (R.rig_state inner.old) }

    ensures machine { (R.rig_state inner.new).machine ≡ (R.rig_state inner.old).machine }
    ensures length { length reply.new ≡ length reply.old }
    ensures within { IfSome result (λ r. r.count ≤ length reply.new) }
    ensures ready { IfSome result (λ r. IsReady set.old.config.shape set.new.config r.left.running (R.rig_state inner.new)) }
    ensures told { IfSome result (λ r. IsAnswered set.old.config.shape before.check request.now (take r.count reply.new) r.left.check
        set.old.config before.running (R.rig_state inner.old) set.new.config r.left.running (R.rig_state inner.new)) }
    ensures unreached { IsNoRequest set.old.config.shape before.check request.now → R.rig_state inner.new ≡ R.rig_state inner.old }
    ensures other { IfSome result (λ _. IsNoRequest set.old.config.shape before.check request.now → ⊥) }
    ensures short { IsShort set.old.config.shape before.check request.now (length reply.old) →
        R.rig_state inner.new ≡ R.rig_state inner.old }
    ensures fits { IfSome result (λ _. IsShort set.old.config.shape before.check request.now (length reply.old) → ⊥) }
{
    let mut line = Vec::new(alloc);
    let standing = Standing {
        running: before.running,
        check: before.check,
        room: reply.len(),
    };
    let Some(left) = answer(alloc, inner, set, standing, request, &mut line) else {
        return None;
    };
    let Some(count) = put_reply(&line, reply) else {
        return None;
    };
    Some(Replied { count, left })
}

// A machine of this shape with nothing set.
fn fresh_of(alloc: Global, shape: Shape) -> Result<Config, AllocError>
    ensures right { OnOk result (AreCounts shape.counts) }
    ensures cleared { IfOk result (λ g. g.config ≡ cleared shape) }
{
    // Its counts are what a machine may have.
    let mut line = Vec::new(alloc);
    put_counts(&mut line, Check::new(), 0, shape.counts())?;
    Config::with_room(alloc, shape, 0)
}

impl<R: Rig> RigPort<R> {
    /// A port that isn't open, to this rig as a machine of this shape.
    pub fn new(alloc: Global, inner: R, shape: Shape) -> Self
        ensures { result ≡ record {
          inner = inner;
          shape = shape;
          set = None;
          running = false;
          check = fresh_check;
          talk = [];
          failures = 0;
        } }
    {
        RigPort {
            alloc,
            inner,
            shape,
            set: None,
            running: false,
            check: Check::new(),
            talk: PortLog::new(),
            failures: 0,
        }
    }
}

impl<R: Rig> Port for RigPort<R> {
    ghost port_state = { λ p. rig_port_state (R.rig_state p.inner) p };

    /// Attaches its shape under this whole name to the rig.
    ///
    /// # Errors
    ///
    /// `Failed` where the rig fails, or refuses the fault text of the name. Out of memory.
    fn open(&mut self, name: &str) -> Result<(), PortFail>
        ensures later { (⟦<RigPort<R> as Port>⟧.port_state self.old).failures ≤ (⟦<RigPort<R> as Port>⟧.port_state self.new).failures }
        ensures count { (⟦<RigPort<R> as Port>⟧.port_state self.new).failures < 2 ^ 64 }
        ensures talk { (⟦<RigPort<R> as Port>⟧.port_state self.new).talk ≡ (⟦<RigPort<R> as Port>⟧.port_state self.old).talk }
        ensures opens { OnOk result (Opens (⟦<RigPort<R> as Port>⟧.port_state self.new)) }
        ensures closed { OnErr result ((⟦<RigPort<R> as Port>⟧.port_state self.new).is_open ≡ false) }
        ensures refused { IsErrOf result PortFail.Failed → Rose (⟦<RigPort<R> as Port>⟧.port_state self.old).failures
            (⟦<RigPort<R> as Port>⟧.port_state self.new).failures }
        ensures shape { self.new.shape ≡ self.old.shape }
        ensures attached { OnOk result (Attaches (record { shape = self.old.shape; name = name.now }) (R.rig_state self.old.inner)
            (R.rig_state self.new.inner)) }
    {
        self.set = None;
        self.running = false;
        let Ok(set) = fresh_of(self.alloc, self.shape) else {
            return Err(PortFail::Memory);
        };
        match self.inner.attach(&self.shape, name) {
            Ok(()) => {
                self.set = Some(set);
                Ok(())
            }
            Err(AttachFail::Memory) => Err(PortFail::Memory),
            Err(_) => {
                self.failures = self.failures.saturating_add(1);
                Err(PortFail::Failed)
            }
        }
    }

    fn is_open(&self) -> bool {
        self.set.is_some()
    }

    /// Answers from its rig. A refusal leaves it closed.
    ///
    /// # Errors
    ///
    /// `Failed` where its rig fails or memory is lacking, and for drives where nothing was loaded. So too for what is none of the four
    /// requests, and where `reply` has no room for the line; neither of these reaches its rig.
    fn ask(&mut self, request: &[u8], reply: &mut [u8]) -> Result<usize, PortFail>
        requires { (⟦<RigPort<R> as Port>⟧.port_state self.old).is_open ≡ true }

        ensures machine { machine_told (⟦<RigPort<R> as Port>⟧.port_state self.new)
            ≡ machine_told (⟦<RigPort<R> as Port>⟧.port_state self.old) }
        ensures later { (⟦<RigPort<R> as Port>⟧.port_state self.old).failures ≤ (⟦<RigPort<R> as Port>⟧.port_state self.new).failures }
        ensures count { (⟦<RigPort<R> as Port>⟧.port_state self.new).failures < 2 ^ 64 }
        ensures said { IfOk result (λ n. (⟦<RigPort<R> as Port>⟧.port_state self.new).talk
            ≡ and_sent (⟦<RigPort<R> as Port>⟧.port_state self.old).talk request.now (Some (take n reply.new))) }
        ensures unsaid { OnErr result ((⟦<RigPort<R> as Port>⟧.port_state self.new).talk
            ≡ and_sent (⟦<RigPort<R> as Port>⟧.port_state self.old).talk request.now None) }
        ensures length { length reply.new ≡ length reply.old }
        ensures within { IfOk result (λ n. n ≤ length reply.new) }
        ensures stays { OnOk result ((⟦<RigPort<R> as Port>⟧.port_state self.new).is_open ≡ true) }
        ensures told { IfOk result (λ n. WhereTold (λ d e. Answers d (⟦<RigPort<R> as Port>⟧.port_state self.old).check request.now
            (take n reply.new) e (⟦<RigPort<R> as Port>⟧.port_state self.new).check)
            (⟦<RigPort<R> as Port>⟧.port_state self.old).device (⟦<RigPort<R> as Port>⟧.port_state self.new).device) }
        ensures closed { OnErr result ((⟦<RigPort<R> as Port>⟧.port_state self.new).is_open ≡ false) }
        ensures refused { IfErr result (λ e. AskFails e (⟦<RigPort<R> as Port>⟧.port_state self.old)
            (⟦<RigPort<R> as Port>⟧.port_state self.new)) }
        ensures shape { self.new.shape ≡ self.old.shape }
        ensures unreached { IsNoRequest self.old.shape self.old.check request.now →
            R.rig_state self.new.inner ≡ R.rig_state self.old.inner }
        ensures other { IfOk result (λ _. IsNoRequest self.old.shape self.old.check request.now → ⊥) }
        ensures short { IsShort self.old.shape self.old.check request.now (length reply.old) →
            R.rig_state self.new.inner ≡ R.rig_state self.old.inner }
        ensures fits { IfOk result (λ _. IsShort self.old.shape self.old.check request.now (length reply.old) → ⊥) }
    {
        let Some(mut set) = self.set.take() else {
            unreachable!()
        };
        let before = Left {
            running: self.running,
            check: self.check,
        };
        match reply_to(
            self.alloc,
            &mut self.inner,
            &mut set,
            before,
            request,
            reply,
        ) {
            Some(replied) => {
                self.running = replied.left.running;
                self.check = replied.left.check;
                self.set = Some(set);
                self.talk = self.talk.and(request, &reply[..replied.count]);
                Ok(replied.count)
            }
            None => {
                self.talk = self.talk.and_unanswered(request);
                self.failures = self.failures.saturating_add(1);
                Err(PortFail::Failed)
            }
        }
    }
}
