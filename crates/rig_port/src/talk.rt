//! A talk over files: a request goes to one, and a line comes from one.
ghost use Rattle.std.specs.Prelude.{◌≡◌, ◌≤◌, ◌⊎◌, [], ◌∷◌, true, false, length, take, get_or, IfSome, IfOk, IsErrOf};
ghost use Rattle.std.specs.Io.KnownBytes.{Consumes};
ghost use Rattle.rig_port.specs.FilePorts.{ahead, AsksWhatItIs, IsLine, HasHeard, HasTalked, HasWritten};

use crate::parse::part;
use std::io::{Read, Write};
use std::marker::Model;

/// Bytes that were read and not yet used.
#[derive(Drop)]
pub struct Rest {
    pub block: Vec<u8>,
    pub at: usize,
    pub end: usize,
}

impl Model for Rest {
    ghost use Rattle.std.specs.Prelude.{List, ℕ, ◌≤◌, length, take, drop};

    ghost Value = { List ℕ };

    ghost view = { λ r. drop r.at (take r.end r.block.items) };

    ghost invariant = { λ r. (r.at ≤ r.end) × (r.end ≤ length r.block.items) };
}

/// Where requests go, and where replies come from, if that is another file; what was read and not yet used; and whether the end of a line
/// that was too long is still to come.
#[derive(Drop)]
pub struct Ends<F: Drop> {
    pub to: F,
    pub from: Option<F>,
    pub rest: Rest,
    pub is_cut: bool,
}

/// Why there is no reply.
#[derive(Clone, Copy, PartialEq, Eq)]
pub enum NoReply {
    /// A line came that is too long, or in which the other end refuses.
    Wrong,
    /// A file failed, or ended.
    Ended,
}

/// How many bytes are dropped at most before a reply.
const MOST_DROPPED: usize = 1_048_576;

impl Rest {
    // The next byte. `None` at the end, or where the file fails.
    fn next<F: Read>(&mut self, from: &mut F) -> Option<u8>
        ensures { IfSome result (λ byte. Consumes (ahead self.old (F.remaining from.old)) (ahead self.new (F.remaining from.new))
            (byte ∷ [])) }
    {
        if self.at == self.end {
            self.at = 0;
            self.end = 0;
            match from.read(&mut self.block) {
                Ok(count) => self.end = count,
                Err(_) => return None,
            }
            if self.end == 0 {
                return None;
            }
        }
        let byte = self.block[self.at];
        self.at += 1;
        Some(byte)
    }
}

// Reads a line to its end, or as far as there is room for it, and says which. `None` where the file ends or fails before.
fn read_line<F: Read>(
    from: &mut F,
    rest: &mut Rest,
    into: &mut [u8],
    is_cut: &mut bool,
) -> Option<usize>
    ensures length { length into.new ≡ length into.old }
    ensures within { IfSome result (λ n. n ≤ length into.new) }
    ensures read { IfSome result (λ n. Consumes (ahead rest.old (F.remaining from.old)) (ahead rest.new (F.remaining from.new))
        (take n into.new)) }
    ensures line { IfSome result (λ n. is_cut.new ≡ false → IsLine (take n into.new)) }
{
    'bytes: for k in 0..into.len() {
        let byte = rest.next(from)?;
        into[k] = byte;
        if byte == b'\n' {
            *is_cut = false;
            return Some(k + 1);
        }
    }
    *is_cut = true;
    Some(into.len())
}

// Whether a line begins as the answer does to a request that asks what a machine is: with the version, and the request's number.
fn is_numbered(request: &[u8], line: &[u8]) -> bool {
    let number = part(request, 2, request.len().saturating_sub(6));
    let end = number.len().saturating_add(3);
    if !line.starts_with(b"=2 ") {
        return false;
    }
    if part(line, 3, end) != number {
        return false;
    }
    part(line, end, end.saturating_add(1)) == b" ".as_slice()
}

// Whether a line begins with this byte.
fn begins(line: &[u8], byte: u8) -> bool
    ensures { result ≡ true → get_or line.now 0 0 ≡ byte }
{
    if line.is_empty() {
        return false;
    }
    line[0] == byte
}

// Whether a line is the reply to a request by how it begins. What asks what a machine is passes over what was left on the way, but takes a
// refusal, for nothing else may come.
fn is_due(request: &[u8], line: &[u8]) -> bool
    ensures { result ≡ false → AsksWhatItIs request.now }
{
    if !begins(request, b'a') {
        return true;
    }
    if begins(line, b'!') {
        return true;
    }
    is_numbered(request, line)
}

// Whether what was read is taken for the reply to a request: it is no end of a line that was too long, and is due.
fn is_taken(was_cut: bool, request: &[u8], line: &[u8]) -> bool
    ensures { result ≡ false → (was_cut ≡ true) ⊎ AsksWhatItIs request.now }
{
    if was_cut {
        return false;
    }
    is_due(request, line)
}

// A line of so many bytes, where it is whole.
fn whole(is_cut: bool, count: usize) -> Result<usize, NoReply>
    ensures { IfOk result (λ n. (n ≡ count) × (is_cut ≡ false)) }
{
    if is_cut {
        return Err(NoReply::Wrong);
    }
    Ok(count)
}

// Reads the line that is the reply to a request. What is left of a line that was too long is dropped before, and so are lines that aren't
// due.
fn listen<F: Read>(
    from: &mut F,
    rest: &mut Rest,
    is_cut: &mut bool,
    request: &[u8],
    reply: &mut [u8],
) -> Result<usize, NoReply>
    ensures length { length reply.new ≡ length reply.old }
    ensures within { IfOk result (λ n. n ≤ length reply.new) }
    ensures heard { IfOk result (λ n. HasHeard is_cut.old request.now (ahead rest.old (F.remaining from.old))
        (ahead rest.new (F.remaining from.new)) (take n reply.new)) }
    ensures line { IfOk result (λ n. IsLine (take n reply.new)) }
{
    let mut dropped = 0usize;
    'parts: for _k in 0..MOST_DROPPED {
        let was_cut = *is_cut;
        let Some(count) = read_line(from, rest, reply, is_cut) else {
            return Err(NoReply::Ended);
        };
        if is_taken(was_cut, request, &reply[..count]) {
            return whole(*is_cut, count);
        }
        dropped = dropped.saturating_add(count);
        if dropped > MOST_DROPPED {
            return Err(NoReply::Wrong);
        }
    }
    Err(NoReply::Wrong)
}

/// Sends a request, and reads the line that answers.
///
/// # Errors
///
/// Where a file fails or ends, a line is too long, or the other end refuses.
pub fn talk<F: Read + Write + Drop>(
    ends: &mut Ends<F>,
    request: &[u8],
    reply: &mut [u8],
) -> Result<usize, NoReply>
    ensures length { length reply.new ≡ length reply.old }
    ensures within { IfOk result (λ n. n ≤ length reply.new) }
    ensures talked { IfOk result (λ n. HasTalked F.contents F.remaining ends.old ends.new request.now (take n reply.new)) }
    ensures wrote { IsErrOf result NoReply.Wrong → HasWritten F.contents ends.old ends.new request.now }
{
    if ends.to.write_all(request).is_err() {
        return Err(NoReply::Ended);
    }
    let count = match &mut ends.from {
        Some(from) => listen(from, &mut ends.rest, &mut ends.is_cut, request, reply)?,
        None => listen(
            &mut ends.to,
            &mut ends.rest,
            &mut ends.is_cut,
            request,
            reply,
        )?,
    };
    if reply.first() == Some(&b'!') {
        return Err(NoReply::Wrong);
    }
    Ok(count)
}
