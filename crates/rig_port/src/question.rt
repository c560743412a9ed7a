//! What asks a machine what it is, and whether the reply is right.
ghost use Rattle.std.specs.Prelude.{◌≡◌, ◌⊎◌, ◌+◌, ◌≤◌, true, false, [], vec_len, take, IfSome, IsSome, IfOk, OnOk, IsTrue};
ghost use Rattle.std.specs.Vec.{vec_capacity};
ghost use Rattle.machine_shape.specs.Shape.{pins_of};
ghost use Rattle.machine_config.specs.Configuration.{cleared};
ghost use Rattle.base_io.specs.Counts.{Rose};
ghost use Rattle.rig_port.specs.Checks.{fresh_check, after};
ghost use Rattle.rig_port.specs.Lines.{counts_body, counts_line, AreCounts, turn_room};
ghost use Rattle.rig_port.specs.Requests.{attach_body, attach_line};
ghost use Rattle.rig_port.specs.Ports.{machine_told};
ghost use Rattle.rig_port.specs.Sessions.{KeepsSession, StaysPosted};
ghost use Rattle.rig_port.specs.Transcripts.{Behind, GoOn, and_said};
ghost use Rattle.rig_port.specs.Stands.{Finds, HasStood, StandsTold};

use crate::again::Again;
use crate::check::Check;
use crate::link::Link;
use crate::port::Port;
use crate::spelling::{put_attach, put_check, put_counts};
use machine_shape::Shape;
use std::alloc::AllocError;

/// The number under which a machine is asked first what it is.
pub const FIRST: u32 = 1;

/// For how many bytes a line is to have room behind the words of its edits: a load's `l`, the drives of a request, and the check.
pub fn room_for(pins: u32) -> usize
    ensures { result ≡ turn_room pins }
{
    8208 + pins as usize
}

/// Makes the line that asks what machine it is, under a number, and that of the right answer, with room for those of readings. Answers
/// the check behind that.
pub fn put_question(
    line: &mut Vec<u8>,
    expected: &mut Vec<u8>,
    number: u32,
    shape: &Shape,
) -> Result<Check, AllocError>
    ensures right { OnOk result (AreCounts shape.now.counts) }
    ensures line { OnOk result (line.new.items ≡ attach_line number) }
    ensures expected { OnOk result (expected.new.items
        ≡ counts_line (after fresh_check (attach_body number)) number shape.now.counts) }
    ensures behind { IfOk result (λ now. now ≡ after (after fresh_check (attach_body number)) (counts_body number shape.now.counts)) }
    ensures room { OnOk result (turn_room (pins_of shape.now) ≤ vec_capacity expected.new) }
{
    line.clear();
    expected.clear();
    put_attach(line, number)?;
    line.reserve(6)?;
    let asked = put_check(line, Check::new());
    let now = put_counts(expected, asked, number, shape.counts())?;
    expected.reserve(room_for(shape.pins()))?;
    Ok(now)
}

/// Whether a line is another, byte by byte.
pub fn is_line(reply: &[u8], expected: &[u8]) -> bool
    ensures right { IsTrue result → reply.now ≡ expected.now }
    ensures wrong { result ≡ false → reply.now ≡ expected.now → ⊥ }
{
    reply == expected
}

// Whether the line that came is the one that is expected; then it is what was answered.
fn take_counts(link: &mut Link, question: &[u8], count: usize) -> bool
    requires { count ≤ vec_len link.old.reply }

    ensures right { IsTrue result → take count link.old.reply.items ≡ link.old.expected.items }
    ensures wrong { result ≡ false → take count link.old.reply.items ≡ link.old.expected.items → ⊥ }
    ensures taken { IsTrue result → link.new.talk ≡ and_said link.old.talk question.now link.old.expected.items }
    ensures left { result ≡ false → link.new.talk ≡ link.old.talk }
    ensures stays { StaysPosted link.old link.new }
    ensures expected { link.new.expected ≡ link.old.expected }
    ensures check { link.new.check ≡ link.old.check }
{
    if !is_line(&link.reply[..count], &link.expected) {
        return false;
    }
    link.talk = link.talk.and(question, &link.expected);
    true
}

/// Asks the machine behind an open port what it is, by a line under this number. False where the port fails, or it is another machine.
pub fn attach<P: Port>(port: &mut P, number: u32, question: &[u8], link: &mut Link) -> bool
    requires open { (P.port_state port.old).is_open ≡ true }
    requires line { question.now ≡ attach_line number }
    requires expected { link.old.expected.items
        ≡ counts_line (after fresh_check (attach_body number)) number link.old.set.config.shape.counts }
    requires check { link.old.check
        ≡ after (after fresh_check (attach_body number)) (counts_body number link.old.set.config.shape.counts) }
    requires counts { AreCounts link.old.set.config.shape.counts }
    requires told { IfSome (P.port_state port.old).device (λ d. AreCounts d.shape.counts) }

    ensures machine { machine_told (P.port_state port.new) ≡ machine_told (P.port_state port.old) }
    ensures later { (P.port_state port.old).failures ≤ (P.port_state port.new).failures }
    ensures talks { GoOn link.old.set.config.shape link.old.talk link.new.talk (P.port_state port.old).talk
        (P.port_state port.new).talk }
    ensures stood { HasStood (P.port_state port.old) link.old.talk → HasStood (P.port_state port.new) link.new.talk }
    ensures stands { IsTrue result → HasStood (P.port_state port.old) link.old.talk → StandsTold (P.port_state port.new) link.new.talk }
    ensures open { IsTrue result → (P.port_state port.new).is_open ≡ true }
    ensures stays { StaysPosted link.old link.new }
    ensures expected { link.new.expected ≡ link.old.expected }
    ensures kept { link.new.check ≡ link.old.check }
    ensures fresh { IsTrue result → IfSome (P.port_state port.new).device (λ d. (d.shape ≡ link.old.set.config.shape)
        × (d.set ≡ cleared link.old.set.config.shape)) }
    ensures check { IsTrue result → IsSome (P.port_state port.new).device → (P.port_state port.new).check ≡ link.new.check }
    ensures said { IsTrue result → Behind (Finds link.old.set.config.shape link.new) link.old.talk link.new.talk }
    ensures alarm { result ≡ false → IfSome (P.port_state port.new).device (λ d. d.shape ≡ link.old.set.config.shape →
        Rose (P.port_state port.old).failures (P.port_state port.new).failures) }
{
    match port.ask(question, &mut link.reply) {
        Ok(count) => take_counts(link, question, count),
        Err(_) => false,
    }
}

/// Asks it under the next number. False where memory is lacking too.
pub fn attach_next<P: Port>(
    port: &mut P,
    link: &mut Link,
    number: &mut u32,
    question: &mut Vec<u8>,
) -> bool
    requires open { (P.port_state port.old).is_open ≡ true }
    requires told { IfSome (P.port_state port.old).device (λ d. AreCounts link.old.set.config.shape.counts → AreCounts d.shape.counts) }

    ensures machine { machine_told (P.port_state port.new) ≡ machine_told (P.port_state port.old) }
    ensures later { (P.port_state port.old).failures ≤ (P.port_state port.new).failures }
    ensures talks { GoOn link.old.set.config.shape link.old.talk link.new.talk (P.port_state port.old).talk
        (P.port_state port.new).talk }
    ensures stood { HasStood (P.port_state port.old) link.old.talk → HasStood (P.port_state port.new) link.new.talk }
    ensures stands { IsTrue result → HasStood (P.port_state port.old) link.old.talk → StandsTold (P.port_state port.new) link.new.talk }
    ensures open { IsTrue result → (P.port_state port.new).is_open ≡ true }
    ensures stays { StaysPosted link.old link.new }
    ensures room { IsTrue result → turn_room (pins_of link.old.set.config.shape) ≤ vec_capacity link.new.expected }
    ensures fresh { IsTrue result → IfSome (P.port_state port.new).device (λ d. (d.shape ≡ link.old.set.config.shape)
        × (d.set ≡ cleared link.old.set.config.shape)) }
    ensures check { IsTrue result → IsSome (P.port_state port.new).device → (P.port_state port.new).check ≡ link.new.check }
    ensures said { IsTrue result → Behind (Finds link.old.set.config.shape link.new) link.old.talk link.new.talk }
{
    *number = number.saturating_add(1);
    let shape = link.set.shape();
    let Ok(check) = put_question(question, &mut link.expected, *number, &shape) else {
        return false;
    };
    link.check = check;
    attach(port, *number, question, link)
}

// Asks it under the next numbers, at most twice, while the port is open.
fn attach_again<P: Port>(
    port: &mut P,
    link: &mut Link,
    again: &mut Again,
    failures: &mut u64,
) -> bool
    requires told { IfSome (P.port_state port.old).device (λ d. AreCounts link.old.set.config.shape.counts → AreCounts d.shape.counts) }

    ensures machine { machine_told (P.port_state port.new) ≡ machine_told (P.port_state port.old) }
    ensures later { (P.port_state port.old).failures ≤ (P.port_state port.new).failures }
    ensures talks { GoOn link.old.set.config.shape link.old.talk link.new.talk (P.port_state port.old).talk
        (P.port_state port.new).talk }
    ensures stood { HasStood (P.port_state port.old) link.old.talk → HasStood (P.port_state port.new) link.new.talk }
    ensures stands { IsTrue result → HasStood (P.port_state port.old) link.old.talk → StandsTold (P.port_state port.new) link.new.talk }
    ensures open { IsTrue result → (P.port_state port.new).is_open ≡ true }
    ensures stays { StaysPosted link.old link.new }
    ensures room { IsTrue result → turn_room (pins_of link.old.set.config.shape) ≤ vec_capacity link.new.expected }
    ensures fresh { IsTrue result → IfSome (P.port_state port.new).device (λ d. (d.shape ≡ link.old.set.config.shape)
        × (d.set ≡ cleared link.old.set.config.shape)) }
    ensures check { IsTrue result → IsSome (P.port_state port.new).device → (P.port_state port.new).check ≡ link.new.check }
    ensures said { IsTrue result → Behind (Finds link.old.set.config.shape link.new) link.old.talk link.new.talk }
    ensures past { KeepsSession again.old again.new }
    ensures spare { again.new.spare ≡ again.old.spare }
    ensures count { failures.old ≤ failures.new }
{
    'tries: for _k in 0..2 {
        if !port.is_open() {
            return false;
        }
        if attach_next(port, link, &mut again.number, &mut again.question) {
            return true;
        }
        *failures = failures.saturating_add(1);
    }
    false
}

/// Asks what it is, under the first number, and at most twice again while the port is open; each that fails is counted. False where all
/// failed.
pub fn attach_some<P: Port>(
    port: &mut P,
    link: &mut Link,
    again: &mut Again,
    failures: &mut u64,
) -> bool
    requires open { (P.port_state port.old).is_open ≡ true }
    requires line { again.old.question.items ≡ attach_line 1 }
    requires expected { link.old.expected.items
        ≡ counts_line (after fresh_check (attach_body 1)) 1 link.old.set.config.shape.counts }
    requires check { link.old.check ≡ after (after fresh_check (attach_body 1)) (counts_body 1 link.old.set.config.shape.counts) }
    requires room { turn_room (pins_of link.old.set.config.shape) ≤ vec_capacity link.old.expected }
    requires counts { AreCounts link.old.set.config.shape.counts }
    requires told { IfSome (P.port_state port.old).device (λ d. AreCounts d.shape.counts) }

    ensures machine { machine_told (P.port_state port.new) ≡ machine_told (P.port_state port.old) }
    ensures later { (P.port_state port.old).failures ≤ (P.port_state port.new).failures }
    ensures talks { GoOn link.old.set.config.shape link.old.talk link.new.talk (P.port_state port.old).talk
        (P.port_state port.new).talk }
    ensures stood { HasStood (P.port_state port.old) link.old.talk → HasStood (P.port_state port.new) link.new.talk }
    ensures stands { IsTrue result → HasStood (P.port_state port.old) link.old.talk → StandsTold (P.port_state port.new) link.new.talk }
    ensures open { IsTrue result → (P.port_state port.new).is_open ≡ true }
    ensures stays { StaysPosted link.old link.new }
    ensures room { IsTrue result → turn_room (pins_of link.old.set.config.shape) ≤ vec_capacity link.new.expected }
    ensures fresh { IsTrue result → IfSome (P.port_state port.new).device (λ d. (d.shape ≡ link.old.set.config.shape)
        × (d.set ≡ cleared link.old.set.config.shape)) }
    ensures check { IsTrue result → IsSome (P.port_state port.new).device → (P.port_state port.new).check ≡ link.new.check }
    ensures said { IsTrue result → Behind (Finds link.old.set.config.shape link.new) link.old.talk link.new.talk }
    ensures alarm { result ≡ false → IfSome (P.port_state port.new).device (λ d. d.shape ≡ link.old.set.config.shape →
        Rose (P.port_state port.old).failures (P.port_state port.new).failures) }
    ensures past { KeepsSession again.old again.new }
    ensures spare { again.new.spare ≡ again.old.spare }
    ensures count { failures.old ≤ failures.new }
    ensures rose { result ≡ false → Rose failures.old failures.new }
    ensures number { (again.new.number ≡ 1) ⊎ Rose failures.old failures.new }
{
    again.number = FIRST;
    if attach(port, FIRST, &again.question, link) {
        return true;
    }
    *failures = failures.saturating_add(1);
    attach_again(port, link, again, failures)
}
