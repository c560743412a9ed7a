//! Lines by which those who had one keep it, where that can be.
//!
//! Those whose old line serves them get it, and the others what is left. Where one of them gets nothing so, some leave their
//! old lines, those that stand on a shortest way. Of this search nothing is proved: what it comes to is tried.
ghost use Rattle.std.specs.Prelude.{◌≡◌, ◌<◌, true, None, IfOk, IfSome, length};
ghost use Rattle.std.specs.List.{range_with_len};
ghost use Rattle.place_plan.specs.Choices.{IsSite, serves_by};
ghost use Rattle.place_plan.specs.Search.{IsPartial, line_at, owner_at};

use crate::search::{Ask, Site, serves_at};
use std::alloc::{AllocError, Global};

// Where there is no line.
const NOWHERE: usize = usize::MAX;

// Who has which line.
#[derive(Drop)]
struct Keeping {
    // The one that has each line.
    owners: Vec<Option<usize>>,
    // The place of the line that each one has.
    places: Vec<usize>,
    // Whether a line has been its owner's before.
    kept: Vec<bool>,
}

// A way to a line that is looked for.
#[derive(Drop)]
struct Ways {
    // From whom each line was reached.
    from: Vec<usize>,
    // Those from whom lines are looked for.
    queue: Vec<usize>,
}

// Whether the line at a place serves one who asks.
fn serves(site: &Site<'_>, ask: usize, j: usize) -> bool
    requires { IsSite site.now.defects.now.shape site.now.asks.now site.now.lines.now }
{
    if ask >= site.asks.len() {
        return false;
    }
    if j >= site.lines.len() {
        return false;
    }
    serves_at(site, ask, j)
}

// The number at a place, or none.
fn number_at(numbers: &[usize], k: usize) -> usize {
    match numbers.get(k) {
        Some(number) => *number,
        None => NOWHERE,
    }
}

fn is_kept(keeping: &Keeping, j: usize) -> bool {
    match keeping.kept.get(j) {
        Some(kept) => *kept,
        None => false,
    }
}

fn owner_of(keeping: &Keeping, j: usize) -> Option<usize> {
    match keeping.owners.get(j) {
        Some(owner) => *owner,
        None => None,
    }
}

// Gives one who asks the line at a place.
fn put(keeping: &mut Keeping, ask: usize, j: usize, kept: bool) {
    if ask < keeping.places.len() {
        keeping.places[ask] = j;
    }
    if j < keeping.owners.len() {
        keeping.owners[j] = Some(ask);
    }
    if j < keeping.kept.len() {
        keeping.kept[j] = kept;
    }
}

// Whether this wire was of the net of one who asks.
fn had_wire(asks: &[Ask], had: &[u32], ask: usize, wire: u32) -> bool {
    let Some(net) = had.get(wire as usize) else {
        return false;
    };
    match asks.get(ask) {
        Some(asking) => asking.net.0 == *net,
        None => false,
    }
}

// The one without a line who had the line at a place and whom it serves.
fn asker_of(site: &Site<'_>, had: &[u32], keeping: &Keeping, j: usize) -> Option<usize>
    requires { IsSite site.now.defects.now.shape site.now.asks.now site.now.lines.now }
{
    let Some(line) = site.lines.get(j) else {
        return None;
    };
    'asks: for k in 0..site.asks.len() {
        if had_wire(site.asks, had, k, *line) {
            if number_at(&keeping.places, k) == NOWHERE && serves(site, k, j) {
                return Some(k);
            }
            return None;
        }
    }
    None
}

// Gives those their old lines whom they serve.
fn keep_old(site: &Site<'_>, had: &[u32], keeping: &mut Keeping)
    requires { IsSite site.now.defects.now.shape site.now.asks.now site.now.lines.now }
{
    'lines: for j in 0..site.lines.len() {
        if let Some(ask) = asker_of(site, had, keeping, j) {
            put(keeping, ask, j, true);
        }
    }
}

// Whether a line that wasn't reached may be taken for one who asks. A line that is kept is spared, if they are.
fn may_take(
    site: &Site<'_>,
    keeping: &Keeping,
    ways: &Ways,
    ask: usize,
    j: usize,
    sparing: bool,
) -> bool
    requires { IsSite site.now.defects.now.shape site.now.asks.now site.now.lines.now }
{
    if number_at(&ways.from, j) != NOWHERE || (sparing && is_kept(keeping, j)) {
        return false;
    }
    serves(site, ask, j)
}

// Reaches lines from one who asks, up to one that nobody has.
fn reach(
    site: &Site<'_>,
    keeping: &Keeping,
    ways: &mut Ways,
    ask: usize,
    sparing: bool,
) -> Result<Option<usize>, AllocError>
    requires { IsSite site.now.defects.now.shape site.now.asks.now site.now.lines.now }
{
    'lines: for j in 0..site.lines.len() {
        if may_take(site, keeping, ways, ask, j, sparing) {
            if j < ways.from.len() {
                ways.from[j] = ask;
            }
            match owner_of(keeping, j) {
                None => return Ok(Some(j)),
                Some(owner) => ways.queue.push(owner)?,
            }
        }
    }
    Ok(None)
}

// Gives a line that nobody has to the one from whom it was reached, whose own line goes to the one before, and so on.
fn give_back(keeping: &mut Keeping, ways: &Ways, line: usize) {
    let mut free = line;
    'steps: for _ in 0..ways.queue.len() {
        let ask = number_at(&ways.from, free);
        let own = number_at(&keeping.places, ask);
        put(keeping, ask, free, false);
        if own == NOWHERE {
            return;
        }
        free = own;
    }
}

// Gives one a line who has none, by a shortest way over lines of others. Whether there is one.
fn find_line(
    alloc: Global,
    site: &Site<'_>,
    keeping: &mut Keeping,
    ask: usize,
    sparing: bool,
) -> Result<bool, AllocError>
    requires { IsSite site.now.defects.now.shape site.now.asks.now site.now.lines.now }
{
    let mut ways = Ways {
        from: vec![in alloc; NOWHERE; site.lines.len()]?,
        queue: Vec::new(alloc),
    };
    ways.queue.push(ask)?;
    'asks: for h in 0..site.asks.len() {
        if h >= ways.queue.len() {
            return Ok(false);
        }
        let next = number_at(&ways.queue, h);
        if let Some(line) = reach(site, keeping, &mut ways, next, sparing)? {
            give_back(keeping, &ways, line);
            return Ok(true);
        }
    }
    Ok(false)
}

// Gives lines to those who have none. Those that are kept are spared while that can be. Whether all have one then.
fn find_others(alloc: Global, site: &Site<'_>, keeping: &mut Keeping) -> Result<bool, AllocError>
    requires { IsSite site.now.defects.now.shape site.now.asks.now site.now.lines.now }
{
    'asks: for k in 0..site.asks.len() {
        if number_at(&keeping.places, k) != NOWHERE {
            continue;
        }
        if find_line(alloc, site, keeping, k, true)? {
            continue;
        }
        if !find_line(alloc, site, keeping, k, false)? {
            return Ok(false);
        }
    }
    Ok(true)
}

// Whether one who asks may get the line at a place: it serves, and nobody has it.
fn may_have(site: &Site<'_>, owners: &[Option<usize>], ask: usize, j: usize) -> bool
    requires site { IsSite site.now.defects.now.shape site.now.asks.now site.now.lines.now }
    requires sized { length owners.now ≡ length site.now.lines.now }
    requires ask { ask < length site.now.asks.now }
    ensures within { result ≡ true → j < length site.now.lines.now }
    ensures free { result ≡ true → owner_at owners.now j ≡ None }
    ensures serving { result ≡ true → serves_by site.now.defects.now site.now.asks.now ask (line_at site.now.lines.now j) ≡ true }
{
    if j >= site.lines.len() {
        return false;
    }
    if owners[j].is_some() {
        return false;
    }
    serves_at(site, ask, j)
}

// The owners of the lines at these places, one for each who asks, if they may have them.
fn owners_by(
    alloc: Global,
    site: &Site<'_>,
    places: &[usize],
) -> Result<Option<Vec<Option<usize>>>, AllocError>
    requires { IsSite site.now.defects.now.shape site.now.asks.now site.now.lines.now }
    ensures { IfOk result (λ o. IfSome o (λ owners. IsPartial (serves_by site.now.defects.now site.now.asks.now)
        site.now.lines.now (range_with_len 0 (length site.now.asks.now)) owners.items)) }
{
    let mut owners = vec![in alloc; None; site.lines.len()]?;
    'asks: for k in 0..site.asks.len() {
        let place = number_at(places, k);
        if place >= owners.len() {
            return Ok(None);
        }
        if !may_have(site, &owners, k, place) {
            return Ok(None);
        }
        owners[place] = Some(k);
    }
    Ok(Some(owners))
}

/// A line for each who asks, old ones first, by the number of the net that had each wire. None where the search finds none, or
/// no number is told.
pub fn owners_keeping(
    alloc: Global,
    site: &Site<'_>,
    had: &[u32],
) -> Result<Option<Vec<Option<usize>>>, AllocError>
    requires { IsSite site.now.defects.now.shape site.now.asks.now site.now.lines.now }
    ensures { IfOk result (λ o. IfSome o (λ owners. IsPartial (serves_by site.now.defects.now site.now.asks.now)
        site.now.lines.now (range_with_len 0 (length site.now.asks.now)) owners.items)) }
{
    if had.is_empty() {
        return Ok(None);
    }
    let mut keeping = Keeping {
        owners: vec![in alloc; None; site.lines.len()]?,
        places: vec![in alloc; NOWHERE; site.asks.len()]?,
        kept: vec![in alloc; false; site.lines.len()]?,
    };
    keep_old(site, had, &mut keeping);
    if !find_others(alloc, site, &mut keeping)? {
        return Ok(None);
    }
    owners_by(alloc, site, &keeping.places)
}
