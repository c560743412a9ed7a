//! A board over a port.
ghost use Rattle.std.specs.Prelude.{◌≡◌, ◌⊎◌, ◌+◌, ◌^◌, ◌<◌, ◌≤◌, [], ◌∷◌, true, false, length, vec_len, Option, None, Some};
ghost use Rattle.std.specs.Prelude.{IfSome, IsSome, IfOk, IfErr, OnOk, OnErr, IsErrOf};
ghost use Rattle.std.specs.Vec.{vec_capacity};
ghost use Rattle.machine_shape.specs.Shape.{pins_of};
ghost use Rattle.machine_config.specs.Configuration.{cleared};
ghost use Rattle.base_io.specs.Counts.{Rose};
ghost use Rattle.rig.specs.Flaky.{both_counts};
ghost use Rattle.rig.specs.Rig.{KeepLengths};
ghost use Rattle.rig_board.specs.Boards.{width_found, Finds, SetsUp, HasCycled, HasCycledAll, AreRowsOf, HasFailed};
ghost use Rattle.rig_board.specs.Device.{Device, IsInSession, faults_told};
ghost use Rattle.rig_board.specs.Machines.{EachWas, Narrows, GoesOnBy};
ghost use Rattle.rig_port.specs.Lines.{turn_room};
ghost use Rattle.rig_port.specs.Linked.{IsPosted, board_of};
ghost use Rattle.rig_port.specs.Sessions.{SetsAnew, HasRows, CanResume};
ghost use Rattle.rig_port.specs.Transcripts.{GoOn, GoOnFor};
ghost use Rattle.rig_port.specs.Stands.{MayBe};

use crate::again::Again;
use crate::check::Check;
use crate::edits::put_edits;
use crate::link::Link;
use crate::port::{Port, PortFail};
use crate::question::{FIRST, attach_some, put_question, room_for};
use crate::resume::drive_on;
use crate::transcript::Transcript;
use machine_config::Config;
use machine_shape::Shape;
use rig::{PinBits, RigFail};
use rig_board::Board;
use std::alloc::{AllocError, Global};
use std::marker::Model;
use std::slice;

/// A line longer than this is no right reply.
const MOST_REPLY: usize = 4101;

/// A machine behind a port, as a board: it speaks the lines of its protocol, and tells the machine that its port tells.
///
/// It is up from an `Ok` of `find` until a `find` is refused or `cycle` or `cycles` fails; lack of memory in `set_up` leaves it up. A
/// load goes out with the cycles that follow it. A request that fails while the port stays open is asked again, at most twice in a call:
/// the session is made anew behind an `a` with the next number. Its count tells each that failed, in a call that ends well too (`again`).
#[derive(Drop)]
pub struct PortBoard<P: Port> {
    alloc: Global,
    port: P,
    found: Option<Shape>,
    // While the board is up.
    link: Option<Link>,
    again: Again,
    // What was taken for answers before it went down.
    past: Transcript,
    failures: u64,
}

impl<P: Port> Model for PortBoard<P> {
    ghost use Rattle.rig.specs.Flaky.{both_counts};
    ghost use Rattle.rig_port.specs.Linked.{PortBoardState};
    ghost use Rattle.rig_port.specs.Codes.{coded_board};

    ghost Value = { PortBoardState };

    ghost coded = { coded_board };

    ghost use Rattle.rig_port.specs.Boards.{state_of, IsUp};

    ghost view = { λ b. state_of (P.port_state b.port) b.found b.link b.past b.again.number b.failures };

    ghost invariant = { λ b. IsUp (P.port_state b.port) b.found b.link b.again };
}

// What is kept of a machine on which nothing is set, with nothing to be sent.
fn link_of(alloc: Global, shape: Shape) -> Result<Link, AllocError>
    ensures set { IfOk result (λ l. l.set.config ≡ cleared shape) }
    ensures line { IfOk result (λ l. l.line.items ≡ []) }
    ensures expected { IfOk result (λ l. l.expected.items ≡ []) }
    ensures talk { IfOk result (λ l. l.talk ≡ []) }
    ensures idle { IfOk result (λ l. (l.anew ≡ false) × (l.running ≡ false) × (l.due ≡ false) × (l.lost ≡ false)) }
{
    Ok(Link {
        set: Config::with_room(alloc, shape, 0)?,
        line: Vec::new(alloc),
        anew: false,
        running: false,
        due: false,
        lost: false,
        check: Check::new(),
        reply: vec![in alloc; 0u8; MOST_REPLY]?,
        expected: Vec::new(alloc),
        talk: Transcript::new(),
    })
}

// Begins a line that sets all anew: all is cleared, and the line begins with a `z`.
fn restart(link: &mut Link) -> Result<(), AllocError>
    ensures shape { link.new.set.config.shape ≡ link.old.set.config.shape }
    ensures expected { link.new.expected ≡ link.old.expected }
    ensures check { link.new.check ≡ link.old.check }
    ensures talk { link.new.talk ≡ link.old.talk }
    ensures idle { (link.new.running ≡ link.old.running) × (link.new.due ≡ link.old.due) × (link.new.lost ≡ link.old.lost) }
    ensures posted { OnOk result ((device : Option Device) → IfSome device (λ d. d.shape ≡ link.old.set.config.shape) →
        IsPosted device link.new.set.config link.new.line.items link.new.anew) }
{
    link.set.clear();
    link.line.clear();
    link.anew = true;
    link.line.extend_from_slice(b"z ")?;
    Ok(())
}

// Begins a load. Where memory was lacking on the way to the one before, all is set anew.
fn begin(link: &mut Link) -> Result<(), AllocError>
    ensures shape { link.new.set.config.shape ≡ link.old.set.config.shape }
    ensures expected { link.new.expected ≡ link.old.expected }
    ensures check { link.new.check ≡ link.old.check }
    ensures talk { link.new.talk ≡ link.old.talk }
    ensures idle { (link.new.running ≡ false) × (link.new.due ≡ false) × (link.new.lost ≡ true) }
    ensures posted { OnOk result ((device : Option Device) → IfSome device (λ d. d.shape ≡ link.old.set.config.shape) →
        (link.old.lost ≡ false → IsPosted device link.old.set.config link.old.line.items link.old.anew) →
        IsPosted device link.new.set.config link.new.line.items link.new.anew) }
{
    let was_lost = link.lost;
    link.running = false;
    link.due = false;
    link.lost = true;
    if !was_lost {
        return Ok(());
    }
    restart(link)?;
    Ok(())
}

// Adds the words that make the configuration.
fn add_edits(alloc: Global, link: &mut Link, config: &Config) -> Result<(), AllocError>
    requires { link.old.set.config.shape ≡ config.now.config.shape }

    ensures shape { link.new.set.config.shape ≡ link.old.set.config.shape }
    ensures expected { link.new.expected ≡ link.old.expected }
    ensures check { link.new.check ≡ link.old.check }
    ensures talk { link.new.talk ≡ link.old.talk }
    ensures idle { (link.new.running ≡ link.old.running) × (link.new.due ≡ link.old.due) × (link.new.lost ≡ link.old.lost) }
    ensures made { OnOk result (link.new.set.config ≡ config.now.config) }
    ensures posted { OnOk result ((device : Option Device) → IsPosted device link.old.set.config link.old.line.items link.old.anew →
        IsPosted device link.new.set.config link.new.line.items link.new.anew) }
{
    put_edits(alloc, &mut link.line, &mut link.set, config)?;
    Ok(())
}

// Spells the words that set all anew.
fn spell_anew(
    alloc: Global,
    set: &mut Config,
    whole: &mut Vec<u8>,
    config: &Config,
) -> Result<(), AllocError>
    requires { set.old.config.shape ≡ config.now.config.shape }

    ensures shape { set.new.config.shape ≡ set.old.config.shape }
    ensures made { OnOk result (set.new.config ≡ config.now.config) }
    ensures anew { OnOk result (SetsAnew config.now.config whole.new.items) }
{
    set.clear();
    whole.clear();
    whole.extend_from_slice(b"z ")?;
    put_edits(alloc, whole, set, config)?;
    Ok(())
}

/// So many bytes has the line that clears all, and sets nothing.
const CLEARS: usize = 2;

// Whether all is set anew: where that line is shorter than edits, and where nothing is to be edited, as where a session is made again,
// but something is set.
fn is_anew(edits: usize, whole: usize) -> bool
    ensures shorter { result ≡ false → edits ≤ whole }
    ensures edited { result ≡ false → edits ≡ 0 → whole ≤ 2 }
{
    if edits == 0 {
        return whole > CLEARS;
    }
    whole < edits
}

// Takes the words that set all anew in the place of edits, where they are shorter, or nothing is to be edited.
fn shorten(link: &mut Link, whole: &[u8]) -> Result<(), AllocError>
    requires { SetsAnew link.old.set.config whole.now }

    ensures set { link.new.set ≡ link.old.set }
    ensures expected { link.new.expected ≡ link.old.expected }
    ensures check { link.new.check ≡ link.old.check }
    ensures talk { link.new.talk ≡ link.old.talk }
    ensures idle { (link.new.running ≡ link.old.running) × (link.new.due ≡ link.old.due) × (link.new.lost ≡ link.old.lost) }
    ensures shortest { OnOk result (vec_len link.new.line ≤ length whole.now) }
    ensures edited { OnOk result (vec_len link.new.line ≡ 0 → length whole.now ≤ 2) }
    ensures posted { OnOk result ((device : Option Device) → IfSome device (λ d. d.shape ≡ link.old.set.config.shape) →
        IsPosted device link.old.set.config link.old.line.items link.old.anew →
        IsPosted device link.new.set.config link.new.line.items link.new.anew) }
{
    if !is_anew(link.line.len(), whole.len()) {
        return Ok(());
    }
    link.line.clear();
    link.anew = true;
    link.line.extend_from_slice(whole)?;
    Ok(())
}

// Posts a load: its words are made, and those that set all anew; the shorter ones go out with the first cycle, and those that set all anew
// where the configuration is the one that is set. Where memory is lacking, all is to be set anew.
fn post(
    alloc: Global,
    link: &mut Link,
    whole: &mut Vec<u8>,
    config: &Config,
) -> Result<(), AllocError>
    requires { link.old.set.config.shape ≡ config.now.config.shape }

    ensures shape { link.new.set.config.shape ≡ link.old.set.config.shape }
    ensures expected { link.new.expected ≡ link.old.expected }
    ensures check { link.new.check ≡ link.old.check }
    ensures talk { link.new.talk ≡ link.old.talk }
    ensures room { OnOk result (vec_len link.new.line + turn_room (pins_of link.new.set.config.shape) ≤ vec_capacity link.new.line) }
    ensures linked { OnOk result ((device : Option Device) → IfSome device (λ d. d.shape ≡ link.old.set.config.shape) →
        (link.old.lost ≡ false → IsPosted device link.old.set.config link.old.line.items link.old.anew) →
        IsPosted device link.new.set.config link.new.line.items link.new.anew) }
    ensures posted { OnOk result ((link.new.set.config ≡ config.now.config) × (link.new.running ≡ true) × (link.new.due ≡ true)
        × (link.new.lost ≡ false)) }
    ensures lost { OnErr result ((link.new.running ≡ false) × (link.new.due ≡ false) × (link.new.lost ≡ true)) }
    ensures anew { OnOk result (SetsAnew config.now.config whole.new.items) }
    ensures shortest { OnOk result (vec_len link.new.line ≤ vec_len whole.new) }
    ensures edited { OnOk result (vec_len link.new.line ≡ 0 → vec_len whole.new ≤ 2) }
{
    begin(link)?;
    add_edits(alloc, link, config)?;
    spell_anew(alloc, &mut link.set, whole, config)?;
    shorten(link, whole)?;
    // Enough for all to be set anew too.
    let pins = link.set.shape().pins();
    let room = whole.len().saturating_add(room_for(pins));
    link.line.reserve(room)?;
    link.running = true;
    link.due = true;
    link.lost = false;
    Ok(())
}

// Posts a load whose session has no cycles yet. Whatever comes of it, what is kept goes with it.
fn post_session(
    alloc: Global,
    link: &mut Link,
    again: &mut Again,
    config: &Config,
) -> Result<(), AllocError>
    requires shape { link.old.set.config.shape ≡ config.now.config.shape }
    requires rows { HasRows (pins_of link.old.set.config.shape) again.old }

    ensures shape { link.new.set.config.shape ≡ link.old.set.config.shape }
    ensures expected { link.new.expected ≡ link.old.expected }
    ensures check { link.new.check ≡ link.old.check }
    ensures talk { link.new.talk ≡ link.old.talk }
    ensures room { OnOk result (vec_len link.new.line + turn_room (pins_of link.new.set.config.shape) ≤ vec_capacity link.new.line) }
    ensures linked { OnOk result ((device : Option Device) → IfSome device (λ d. d.shape ≡ link.old.set.config.shape) →
        (link.old.lost ≡ false → IsPosted device link.old.set.config link.old.line.items link.old.anew) →
        IsPosted device link.new.set.config link.new.line.items link.new.anew) }
    ensures posted { OnOk result ((link.new.set.config ≡ config.now.config) × (link.new.running ≡ true) × (link.new.due ≡ true)
        × (link.new.lost ≡ false)) }
    ensures lost { OnErr result ((link.new.running ≡ false) × (link.new.due ≡ false) × (link.new.lost ≡ true)) }
    ensures number { again.new.number ≡ again.old.number }
    ensures resumes { (device : Option Device) → CanResume device link.new again.new }
{
    again.made = 0;
    again.covers = true;
    post(alloc, link, &mut again.whole, config)
}

impl<P: Port> PortBoard<P> {
    /// A board over this port, which isn't up.
    pub fn new(alloc: Global, port: P) -> Self
        ensures { result ≡ record {
          found = None;
          is_up = false;
          in_session = false;
          is_due = false;
          device = (P.port_state port).device;
          waits = None;
          talk = [];
          port_talk = (P.port_state port).talk;
          number = 0;
          port_failures = (P.port_state port).failures;
          failures = both_counts 0 (P.port_state port).failures;
        } }
    {
        PortBoard {
            alloc,
            port,
            found: None,
            link: None,
            again: Again::new(alloc),
            past: Transcript::new(),
            failures: 0,
        }
    }
}

impl<P: Port> Board for PortBoard<P> {
    ghost board_state = { board_of };

    ghost may_be = { MayBe };

    /// Opens the port, and asks the machine what it is, at most three times. The board is up after an `Ok`, and isn't after a refusal.
    /// Where a machine of this shape is told, it answers `Failed` only where the port failed.
    ///
    /// # Errors
    ///
    /// `Failed` where the port isn't opened or ends, or three times it fails or another machine answers. Out of memory.
    fn find(&mut self, shape: &Shape, name: &str) -> Result<(), RigFail>
        ensures later { (⟦<PortBoard<P> as Board>⟧.board_state self.old).failures
            ≤ (⟦<PortBoard<P> as Board>⟧.board_state self.new).failures }
        ensures count { (⟦<PortBoard<P> as Board>⟧.board_state self.new).failures < 2 ^ 64 }
        ensures found { OnOk result (Finds shape.now (⟦<PortBoard<P> as Board>⟧.board_state self.new)) }
        ensures told { OnOk result (IfSome (⟦<PortBoard<P> as Board>⟧.board_state self.new).device (⟦<PortBoard<P> as Board>⟧.may_be self.new)) }
        ensures lost { OnErr result ((⟦<PortBoard<P> as Board>⟧.board_state self.new).found ≡ None) }
        ensures refused { IsErrOf result RigFail.Failed → Rose (⟦<PortBoard<P> as Board>⟧.board_state self.old).failures
            (⟦<PortBoard<P> as Board>⟧.board_state self.new).failures }
        ensures alarm { IsErrOf result RigFail.Failed → IfSome self.new.device (λ d. d.shape ≡ shape.now →
            Rose self.old.port_failures self.new.port_failures) }
        ensures taken { GoOn shape.now [] self.new.talk self.old.port_talk self.new.port_talk }
        ensures up { OnOk result (self.new.is_up ≡ true) }
        ensures down { OnErr result (self.new.is_up ≡ false) }
        ensures again { OnOk result ((self.new.number ≡ 1) ⊎ Rose self.old.failures self.new.failures) }
    {
        self.found = None;
        self.link = None;
        self.past = Transcript::new();
        let Ok(()) = self.again.make_rows(self.alloc, shape.pins()) else {
            return Err(RigFail::Memory);
        };
        let Ok(mut link) = link_of(self.alloc, *shape) else {
            return Err(RigFail::Memory);
        };
        let Ok(check) = put_question(&mut self.again.question, &mut link.expected, FIRST, shape)
        else {
            return Err(RigFail::Memory);
        };
        link.check = check;
        match self.port.open(name) {
            Ok(()) => {}
            Err(PortFail::Memory) => return Err(RigFail::Memory),
            Err(PortFail::Failed) => return Err(RigFail::Failed),
        }
        if !attach_some(
            &mut self.port,
            &mut link,
            &mut self.again,
            &mut self.failures,
        ) {
            return Err(RigFail::Failed);
        }
        self.found = Some(*shape);
        self.link = Some(link);
        Ok(())
    }

    /// It sends nothing, and leaves the board up, or not up, as it was.
    ///
    /// # Errors
    ///
    /// `Failed` exactly where the board isn't up. Out of memory; then the next one sets all anew.
    fn set_up(&mut self, config: &Config) -> Result<(), RigFail>
        requires { (⟦<PortBoard<P> as Board>⟧.board_state self.old).found ≡ Some config.now.config.shape }

        ensures found { (⟦<PortBoard<P> as Board>⟧.board_state self.new).found
            ≡ (⟦<PortBoard<P> as Board>⟧.board_state self.old).found }
        ensures faults { faults_told (⟦<PortBoard<P> as Board>⟧.board_state self.new).device
            ≡ faults_told (⟦<PortBoard<P> as Board>⟧.board_state self.old).device }
        ensures later { (⟦<PortBoard<P> as Board>⟧.board_state self.old).failures
            ≤ (⟦<PortBoard<P> as Board>⟧.board_state self.new).failures }
        ensures count { (⟦<PortBoard<P> as Board>⟧.board_state self.new).failures < 2 ^ 64 }
        ensures begins { OnOk result (SetsUp config.now.config (⟦<PortBoard<P> as Board>⟧.board_state self.new)) }
        ensures refused { IsErrOf result RigFail.Failed → Rose (⟦<PortBoard<P> as Board>⟧.board_state self.old).failures
            (⟦<PortBoard<P> as Board>⟧.board_state self.new).failures }
        ensures set_for_each { OnOk result (EachWas (λ o d. IsInSession config.now.config [] d) (⟦<PortBoard<P> as Board>⟧.may_be self.old)
            (⟦<PortBoard<P> as Board>⟧.may_be self.new)) }
        ensures narrows { Narrows (⟦<PortBoard<P> as Board>⟧.may_be self.old)
            (⟦<PortBoard<P> as Board>⟧.may_be self.new) }
        ensures told { OnOk result (IfSome (⟦<PortBoard<P> as Board>⟧.board_state self.new).device (⟦<PortBoard<P> as Board>⟧.may_be self.new)) }
        ensures taken { (self.new.talk ≡ self.old.talk) × (self.new.port_talk ≡ self.old.port_talk) }
        ensures up { IsErrOf result RigFail.Failed → self.old.is_up ≡ false }
        ensures down { self.old.is_up ≡ false → IsErrOf result RigFail.Failed }
        ensures stays { self.new.is_up ≡ self.old.is_up }
        ensures unsent { self.new.port_failures ≡ self.old.port_failures }
        ensures waits { OnOk result (self.new.is_due ≡ true) }
        ensures number { self.new.number ≡ self.old.number }
    {
        let Some(mut link) = self.link.take() else {
            self.failures = self.failures.saturating_add(1);
            return Err(RigFail::Failed);
        };
        let posted = post_session(self.alloc, &mut link, &mut self.again, config);
        self.link = Some(link);
        match posted {
            Ok(()) => Ok(()),
            Err(_) => Err(RigFail::Memory),
        }
    }

    /// Sends what is due with a drive, and reads what comes. The board is up after an `Ok`, and isn't after a refusal. Where a machine
    /// is told, it answers `Failed` only where the port failed.
    ///
    /// # Errors
    ///
    /// `Failed` where the port ends, or three times it fails, a line isn't that of a reading, or the session reads otherwise than before.
    fn cycle(&mut self, drive: &PinBits, read: &mut PinBits) -> Result<(), RigFail>
        requires session { (⟦<PortBoard<P> as Board>⟧.board_state self.old).in_session ≡ true }
        requires drive_pins { width_found (⟦<PortBoard<P> as Board>⟧.board_state self.old) ≡ Some (length drive.now) }
        requires read_pins { width_found (⟦<PortBoard<P> as Board>⟧.board_state self.old) ≡ Some (length read.old) }

        ensures found { (⟦<PortBoard<P> as Board>⟧.board_state self.new).found
            ≡ (⟦<PortBoard<P> as Board>⟧.board_state self.old).found }
        ensures faults { faults_told (⟦<PortBoard<P> as Board>⟧.board_state self.new).device
            ≡ faults_told (⟦<PortBoard<P> as Board>⟧.board_state self.old).device }
        ensures later { (⟦<PortBoard<P> as Board>⟧.board_state self.old).failures
            ≤ (⟦<PortBoard<P> as Board>⟧.board_state self.new).failures }
        ensures count { (⟦<PortBoard<P> as Board>⟧.board_state self.new).failures < 2 ^ 64 }
        ensures length { length read.new ≡ length read.old }
        ensures cycles { OnOk result (HasCycled (record { drive = drive.now; reading = read.new } ∷ [])
            (⟦<PortBoard<P> as Board>⟧.board_state self.old) (⟦<PortBoard<P> as Board>⟧.board_state self.new)) }
        ensures refused { IfErr result (λ e. HasFailed e (⟦<PortBoard<P> as Board>⟧.board_state self.old)
            (⟦<PortBoard<P> as Board>⟧.board_state self.new)) }
        ensures cycles_for_each { OnOk result (EachWas (GoesOnBy (drive.now ∷ []) (read.new ∷ [])) (⟦<PortBoard<P> as Board>⟧.may_be self.old)
            (⟦<PortBoard<P> as Board>⟧.may_be self.new)) }
        ensures narrows { Narrows (⟦<PortBoard<P> as Board>⟧.may_be self.old)
            (⟦<PortBoard<P> as Board>⟧.may_be self.new) }
        ensures told { OnOk result (IfSome (⟦<PortBoard<P> as Board>⟧.board_state self.new).device (⟦<PortBoard<P> as Board>⟧.may_be self.new)) }
        ensures taken { GoOnFor self.old.found self.old.talk self.new.talk self.old.port_talk self.new.port_talk }
        ensures alarm { OnErr result (IsSome self.old.device → Rose self.old.port_failures self.new.port_failures) }
        ensures up { OnOk result (self.new.is_up ≡ true) }
        ensures down { OnErr result (self.new.is_up ≡ false) }
        ensures sent { OnOk result (self.new.is_due ≡ false) }
        ensures again { (self.new.number ≡ self.old.number) ⊎ Rose self.old.failures self.new.failures }
    {
        let Some(mut link) = self.link.take() else {
            unreachable!()
        };
        if !drive_on(
            &mut self.port,
            &mut link,
            &mut self.again,
            slice::from_ref(drive),
            slice::from_mut(read),
            &mut self.failures,
        ) {
            self.past = link.talk;
            return Err(RigFail::Failed);
        }
        self.link = Some(link);
        Ok(())
    }

    /// Sends what is due with the drives, in as few requests as their replies allow, and reads what comes; without drives a load that is
    /// due, so a machine is left loaded. The board is up after an `Ok`, and isn't after a refusal. Where a machine is told, it answers
    /// `Failed` only where the port failed.
    ///
    /// # Errors
    ///
    /// `Failed` where the port ends, or three times it fails, a line isn't that of as many readings as were asked, or the session reads
    /// otherwise than before.
    fn cycles(&mut self, drives: &[PinBits], reads: &mut [PinBits]) -> Result<(), RigFail>
        requires session { (⟦<PortBoard<P> as Board>⟧.board_state self.old).in_session ≡ true }
        requires drive_pins { AreRowsOf (⟦<PortBoard<P> as Board>⟧.board_state self.old) drives.now }
        requires read_pins { AreRowsOf (⟦<PortBoard<P> as Board>⟧.board_state self.old) reads.old }
        requires as_many { length drives.now ≡ length reads.old }

        ensures found { (⟦<PortBoard<P> as Board>⟧.board_state self.new).found
            ≡ (⟦<PortBoard<P> as Board>⟧.board_state self.old).found }
        ensures faults { faults_told (⟦<PortBoard<P> as Board>⟧.board_state self.new).device
            ≡ faults_told (⟦<PortBoard<P> as Board>⟧.board_state self.old).device }
        ensures later { (⟦<PortBoard<P> as Board>⟧.board_state self.old).failures
            ≤ (⟦<PortBoard<P> as Board>⟧.board_state self.new).failures }
        ensures count { (⟦<PortBoard<P> as Board>⟧.board_state self.new).failures < 2 ^ 64 }
        ensures lengths { KeepLengths reads.old reads.new }
        ensures cycles { OnOk result (HasCycledAll drives.now reads.new (⟦<PortBoard<P> as Board>⟧.board_state self.old)
            (⟦<PortBoard<P> as Board>⟧.board_state self.new)) }
        ensures refused { IfErr result (λ e. HasFailed e (⟦<PortBoard<P> as Board>⟧.board_state self.old)
            (⟦<PortBoard<P> as Board>⟧.board_state self.new)) }
        ensures cycles_for_each { OnOk result (EachWas (GoesOnBy drives.now reads.new) (⟦<PortBoard<P> as Board>⟧.may_be self.old)
            (⟦<PortBoard<P> as Board>⟧.may_be self.new)) }
        ensures narrows { Narrows (⟦<PortBoard<P> as Board>⟧.may_be self.old)
            (⟦<PortBoard<P> as Board>⟧.may_be self.new) }
        ensures told { OnOk result (IfSome (⟦<PortBoard<P> as Board>⟧.board_state self.new).device (⟦<PortBoard<P> as Board>⟧.may_be self.new)) }
        ensures taken { GoOnFor self.old.found self.old.talk self.new.talk self.old.port_talk self.new.port_talk }
        ensures alarm { OnErr result (IsSome self.old.device → Rose self.old.port_failures self.new.port_failures) }
        ensures up { OnOk result (self.new.is_up ≡ true) }
        ensures down { OnErr result (self.new.is_up ≡ false) }
        ensures sent { OnOk result (self.new.is_due ≡ false) }
        ensures again { (self.new.number ≡ self.old.number) ⊎ Rose self.old.failures self.new.failures }
    {
        let Some(mut link) = self.link.take() else {
            unreachable!()
        };
        if !drive_on(
            &mut self.port,
            &mut link,
            &mut self.again,
            drives,
            reads,
            &mut self.failures,
        ) {
            self.past = link.talk;
            return Err(RigFail::Failed);
        }
        self.link = Some(link);
        Ok(())
    }
}
