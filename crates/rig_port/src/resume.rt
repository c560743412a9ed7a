//! A session is made again where a request of it failed, and goes on.
ghost use Rattle.std.specs.Prelude.{◌≡◌, ◌⊎◌, ◌++◌, ◌≤◌, ◌<◌, true, false, length, IfSome, IsSome, IsTrue, OnOk, Option};
ghost use Rattle.std.specs.Vec.{vec_capacity};
ghost use Rattle.machine_shape.specs.Shape.{pins_of};
ghost use Rattle.base_io.specs.Counts.{Rose};
ghost use Rattle.rig.specs.Rig.{KeepLengths};
ghost use Rattle.rig_board.specs.Device.{Device};
ghost use Rattle.rig_port.specs.Lines.{turn_room};
ghost use Rattle.rig_port.specs.Requests.{AreWide};
ghost use Rattle.rig_port.specs.Ports.{IsLater};
ghost use Rattle.rig_port.specs.Linked.{IsLinked};
ghost use Rattle.rig_port.specs.Boards.{IsKeptUp, HasRoom};
ghost use Rattle.rig_port.specs.Sessions.{SetsAnew, CanResume, HasMade, StaysLoaded, kept_pairs, paired};
ghost use Rattle.rig_port.specs.Transcripts.{Behind, GoOn};
ghost use Rattle.rig_port.specs.Stands.{Turns, Makes, TurnsAgain, GoesOn, HasStood, StandsTold};
ghost use Rattle.rig_port.specs.Turns.{CanTurn, AreRowsFor, HasMadeTurns, CanMakeAgain, KeepsRows};

use crate::again::{Again, are_same};
use crate::link::Link;
use crate::port::Port;
use crate::question::{attach_next, room_for};
use crate::turn::{turn_all, turn_some};
use rig::PinBits;
use std::alloc::AllocError;

// Makes the words due that set all anew, and load it.
fn load_anew(link: &mut Link, whole: &[u8]) -> Result<(), AllocError>
    requires whole { SetsAnew link.old.set.config whole.now }
    requires expected { turn_room (pins_of link.old.set.config.shape) ≤ vec_capacity link.old.expected }

    ensures stays { StaysLoaded link.old link.new }
    ensures check { link.new.check ≡ link.old.check }
    ensures talk { link.new.talk ≡ link.old.talk }
    ensures due { OnOk result (link.new.due ≡ true) }
    ensures linked { OnOk result ((device : Option Device) → IfSome device (λ d. d.shape ≡ link.old.set.config.shape) →
        IsLinked device link.new.set.config link.new.line.items link.new.anew link.new.running link.new.due) }
    ensures room { OnOk result (HasRoom (pins_of link.new.set.config.shape) link.new) }
{
    link.line.clear();
    link.line.extend_from_slice(whole)?;
    let pins = link.set.shape().pins();
    link.line.reserve(room_for(pins))?;
    link.anew = true;
    link.due = true;
    Ok(())
}

// Makes cycles again. False where that fails, or other bits are read than before.
fn redrive<P: Port>(
    port: &mut P,
    link: &mut Link,
    drives: &[PinBits],
    readings: &[PinBits],
    spare: &mut [PinBits],
) -> bool
    requires ready { CanTurn (P.port_state port.old) link.old drives.now }
    requires rows { AreRowsFor link.old.set.config drives.now spare.old }
    requires as_many_read { length readings.now ≡ length drives.now }

    ensures later { IsLater (P.port_state port.old) (P.port_state port.new) }
    ensures talks { GoOn link.old.set.config.shape link.old.talk link.new.talk (P.port_state port.old).talk
        (P.port_state port.new).talk }
    ensures stood { StandsTold (P.port_state port.old) link.old.talk → HasStood (P.port_state port.new) link.new.talk }
    ensures stands { IsTrue result → StandsTold (P.port_state port.old) link.old.talk → StandsTold (P.port_state port.new) link.new.talk }
    ensures lengths { KeepLengths spare.old spare.new }
    ensures stays { StaysLoaded link.old link.new }
    ensures turned { IsTrue result → HasMadeTurns drives.now readings.now (P.port_state port.old) (P.port_state port.new) link.old
        link.new }
    ensures said { IsTrue result → Behind (Turns drives.now readings.now link.old link.new) link.old.talk link.new.talk }
{
    if !turn_some(port, link, drives, spare) {
        return false;
    }
    are_same(spare, readings)
}

// The same, with rows beyond those that are read.
fn redrive_first<P: Port>(
    port: &mut P,
    link: &mut Link,
    drives: &[PinBits],
    readings: &[PinBits],
    spare: &mut [PinBits],
) -> bool
    requires ready { CanTurn (P.port_state port.old) link.old drives.now }
    requires spare { AreWide link.old.set.config.shape spare.old }
    requires as_many { length drives.now ≤ length spare.old }
    requires as_many_read { length readings.now ≡ length drives.now }

    ensures later { IsLater (P.port_state port.old) (P.port_state port.new) }
    ensures talks { GoOn link.old.set.config.shape link.old.talk link.new.talk (P.port_state port.old).talk
        (P.port_state port.new).talk }
    ensures stood { StandsTold (P.port_state port.old) link.old.talk → HasStood (P.port_state port.new) link.new.talk }
    ensures stands { IsTrue result → StandsTold (P.port_state port.old) link.old.talk → StandsTold (P.port_state port.new) link.new.talk }
    ensures lengths { KeepLengths spare.old spare.new }
    ensures stays { StaysLoaded link.old link.new }
    ensures turned { IsTrue result → HasMadeTurns drives.now readings.now (P.port_state port.old) (P.port_state port.new) link.old
        link.new }
    ensures said { IsTrue result → Behind (Turns drives.now readings.now link.old link.new) link.old.talk link.new.talk }
{
    let made = drives.len();
    redrive(port, link, drives, readings, &mut spare[..made])
}

// Makes the session again as far as it is kept: the machine is asked under the next number what it is, all is set anew, and the cycles are
// made again. False where one of these requests fails, or other bits are read than before.
fn resume<P: Port>(port: &mut P, link: &mut Link, again: &mut Again) -> bool
    requires open { (P.port_state port.old).is_open ≡ true }
    requires again { CanMakeAgain (P.port_state port.old) link.old again.old }

    ensures later { IsLater (P.port_state port.old) (P.port_state port.new) }
    ensures talks { GoOn link.old.set.config.shape link.old.talk link.new.talk (P.port_state port.old).talk
        (P.port_state port.new).talk }
    ensures stood { HasStood (P.port_state port.old) link.old.talk → HasStood (P.port_state port.new) link.new.talk }
    ensures stands { IsTrue result → HasStood (P.port_state port.old) link.old.talk → StandsTold (P.port_state port.new) link.new.talk }
    ensures stays { StaysLoaded link.old link.new }
    ensures kept { KeepsRows (pins_of link.old.set.config.shape) again.old again.new }
    ensures held { IsTrue result → IsKeptUp (P.port_state port.new) link.old link.new }
    ensures made { IsTrue result → HasMade link.old.set.config (kept_pairs again.old) link.new.due (P.port_state port.new).device }
    ensures said { IsTrue result → Behind (Makes link.old.set.config (kept_pairs again.old) link.new) link.old.talk link.new.talk }
{
    if !attach_next(port, link, &mut again.number, &mut again.question) {
        return false;
    }
    let Ok(()) = load_anew(link, &again.whole) else {
        return false;
    };
    let made = again.made;
    redrive_first(
        port,
        link,
        &again.drives[..made],
        &again.readings[..made],
        &mut again.spare,
    )
}

// Makes the session again as far as it is kept, and then these cycles. False where something fails.
fn turn_again<P: Port>(
    port: &mut P,
    link: &mut Link,
    again: &mut Again,
    drives: &[PinBits],
    reads: &mut [PinBits],
) -> bool
    requires open { (P.port_state port.old).is_open ≡ true }
    requires again { CanMakeAgain (P.port_state port.old) link.old again.old }
    requires drives { AreWide link.old.set.config.shape drives.now }
    requires rows { AreRowsFor link.old.set.config drives.now reads.old }

    ensures later { IsLater (P.port_state port.old) (P.port_state port.new) }
    ensures talks { GoOn link.old.set.config.shape link.old.talk link.new.talk (P.port_state port.old).talk
        (P.port_state port.new).talk }
    ensures stood { HasStood (P.port_state port.old) link.old.talk → HasStood (P.port_state port.new) link.new.talk }
    ensures stands { IsTrue result → HasStood (P.port_state port.old) link.old.talk → StandsTold (P.port_state port.new) link.new.talk }
    ensures lengths { KeepLengths reads.old reads.new }
    ensures stays { StaysLoaded link.old link.new }
    ensures kept { KeepsRows (pins_of link.old.set.config.shape) again.old again.new }
    ensures held { IsTrue result → IsKeptUp (P.port_state port.new) link.old link.new }
    ensures sent { IsTrue result → link.new.due ≡ false }
    ensures made { IsTrue result → HasMade link.old.set.config (kept_pairs again.old ++ paired drives.now reads.new) link.new.due
        (P.port_state port.new).device }
    ensures said { IsTrue result → Behind (Makes link.old.set.config (kept_pairs again.old ++ paired drives.now reads.new) link.new)
        link.old.talk link.new.talk }
{
    if !resume(port, link, again) {
        return false;
    }
    turn_all(port, link, drives, reads)
}

// Does that at most twice, while the port is open; each that fails is counted. False where all failed, or not all of the session is kept.
fn ask_again<P: Port>(
    port: &mut P,
    link: &mut Link,
    again: &mut Again,
    drives: &[PinBits],
    reads: &mut [PinBits],
    failures: &mut u64,
) -> bool
    requires again { CanMakeAgain (P.port_state port.old) link.old again.old }
    requires drives { AreWide link.old.set.config.shape drives.now }
    requires rows { AreRowsFor link.old.set.config drives.now reads.old }

    ensures later { IsLater (P.port_state port.old) (P.port_state port.new) }
    ensures talks { GoOn link.old.set.config.shape link.old.talk link.new.talk (P.port_state port.old).talk
        (P.port_state port.new).talk }
    ensures stood { HasStood (P.port_state port.old) link.old.talk → HasStood (P.port_state port.new) link.new.talk }
    ensures stands { IsTrue result → HasStood (P.port_state port.old) link.old.talk → StandsTold (P.port_state port.new) link.new.talk }
    ensures lengths { KeepLengths reads.old reads.new }
    ensures stays { StaysLoaded link.old link.new }
    ensures kept { KeepsRows (pins_of link.old.set.config.shape) again.old again.new }
    ensures held { IsTrue result → IsKeptUp (P.port_state port.new) link.old link.new }
    ensures sent { IsTrue result → link.new.due ≡ false }
    ensures covers { IsTrue result → again.old.covers ≡ true }
    ensures made { IsTrue result → HasMade link.old.set.config (kept_pairs again.old ++ paired drives.now reads.new) link.new.due
        (P.port_state port.new).device }
    ensures said { IsTrue result → Behind (Makes link.old.set.config (kept_pairs again.old ++ paired drives.now reads.new) link.new)
        link.old.talk link.new.talk }
    ensures count { failures.old ≤ failures.new }
{
    if !again.covers {
        return false;
    }
    'tries: for _k in 0..2 {
        if !port.is_open() {
            return false;
        }
        if turn_again(port, link, again, drives, reads) {
            return true;
        }
        *failures = failures.saturating_add(1);
    }
    false
}

// Sends all drives, and what fails is asked again at most twice. False where that fails too.
fn turn_or_again<P: Port>(
    port: &mut P,
    link: &mut Link,
    again: &mut Again,
    drives: &[PinBits],
    reads: &mut [PinBits],
    failures: &mut u64,
) -> bool
    requires ready { CanTurn (P.port_state port.old) link.old drives.now }
    requires told { IfSome (P.port_state port.old).device (λ d. d.shape ≡ link.old.set.config.shape) }
    requires rows { AreRowsFor link.old.set.config drives.now reads.old }
    requires resumes { CanResume (P.port_state port.old).device link.old again.old }

    ensures later { IsLater (P.port_state port.old) (P.port_state port.new) }
    ensures talks { GoOn link.old.set.config.shape link.old.talk link.new.talk (P.port_state port.old).talk
        (P.port_state port.new).talk }
    ensures stands { IsTrue result → StandsTold (P.port_state port.old) link.old.talk → StandsTold (P.port_state port.new) link.new.talk }
    ensures lengths { KeepLengths reads.old reads.new }
    ensures kept { KeepsRows (pins_of link.old.set.config.shape) again.old again.new }
    ensures sent { IsTrue result → link.new.due ≡ false }
    ensures turned { IsTrue result → HasMadeTurns drives.now reads.new (P.port_state port.old) (P.port_state port.new) link.old
        link.new }
    ensures said { IsTrue result → Behind (TurnsAgain drives.now reads.new again.old link.old link.new) link.old.talk link.new.talk }
    ensures alarm { result ≡ false → IsSome (P.port_state port.old).device →
        Rose (P.port_state port.old).failures (P.port_state port.new).failures }
    ensures count { failures.old ≤ failures.new }
    ensures rose { result ≡ false → Rose failures.old failures.new }
    ensures number { (again.new.number ≡ again.old.number) ⊎ Rose failures.old failures.new }
{
    if turn_all(port, link, drives, reads) {
        return true;
    }
    *failures = failures.saturating_add(1);
    ask_again(port, link, again, drives, reads, failures)
}

/// Sends what is due with these drives, in as few requests as their replies allow, and reads what comes; a load that is due goes out
/// without drives too. Where a request fails, the session is made again under the next number and driven on, at most twice; each failure
/// is counted. False where all fail, and of a machine that is told nothing fails but the port.
pub fn drive_on<P: Port>(
    port: &mut P,
    link: &mut Link,
    again: &mut Again,
    drives: &[PinBits],
    reads: &mut [PinBits],
    failures: &mut u64,
) -> bool
    requires ready { CanTurn (P.port_state port.old) link.old drives.now }
    requires told { IfSome (P.port_state port.old).device (λ d. d.shape ≡ link.old.set.config.shape) }
    requires rows { AreRowsFor link.old.set.config drives.now reads.old }
    requires resumes { CanResume (P.port_state port.old).device link.old again.old }

    ensures later { IsLater (P.port_state port.old) (P.port_state port.new) }
    ensures talks { GoOn link.old.set.config.shape link.old.talk link.new.talk (P.port_state port.old).talk
        (P.port_state port.new).talk }
    ensures stands { IsTrue result → StandsTold (P.port_state port.old) link.old.talk → StandsTold (P.port_state port.new) link.new.talk }
    ensures lengths { KeepLengths reads.old reads.new }
    ensures sent { IsTrue result → link.new.due ≡ false }
    ensures turned { IsTrue result → HasMadeTurns drives.now reads.new (P.port_state port.old) (P.port_state port.new) link.old
        link.new }
    ensures said { IsTrue result → Behind (GoesOn drives.now reads.new again.old again.new link.old link.new) link.old.talk link.new.talk }
    ensures resumes { IsTrue result → CanResume (P.port_state port.new).device link.new again.new }
    ensures alarm { result ≡ false → IsSome (P.port_state port.old).device →
        Rose (P.port_state port.old).failures (P.port_state port.new).failures }
    ensures count { failures.old ≤ failures.new }
    ensures rose { result ≡ false → Rose failures.old failures.new }
    ensures number { (again.new.number ≡ again.old.number) ⊎ Rose failures.old failures.new }
{
    if !turn_or_again(port, link, again, drives, reads, failures) {
        return false;
    }
    let pins = link.set.shape().pins();
    again.keep(pins, drives, reads);
    true
}
