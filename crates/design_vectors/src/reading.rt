//! Vector files, read from a store.

ghost use Rattle.std.specs.Prelude.{◌≡◌, ◌-◌, ◌^◌, ◌<◌, ◌≤◌, length, true, false, IfOk, IfErr, OnErr, OnOk, IsSome, []};
ghost use Rattle.design_vectors.specs.Lines.{begun};
ghost use Rattle.design_vectors.specs.Steps.{IsRefilled, IsStoreFail, HasReadOn, reading_of, answer_of, HasAnswered};
ghost use Rattle.design_vectors.specs.Readings.{new_reading, NextGives, NextFails, HasMoved, HasAsked, GoesFurther, StopsWithin};
ghost use Rattle.design_vectors.specs.Readings.{GivesUnread};

use crate::feed::Feed;
use crate::line::{Line, Step};
use crate::vectors::VectorsFail;
use base_io::Store;
use std::alloc::{AllocError, Global};
use std::marker::Model;

/// How many bytes of a vector file are looked at at most.
const LIMIT: u64 = 1_099_511_627_776;

/// Reads a vector file from a store, vector by vector. Contracts see where it stands in the file.
#[derive(Drop)]
pub struct VectorText {
    line: Line,
    feed: Feed,
}

impl Model for VectorText {
    ghost use Rattle.design_vectors.specs.Readings.{VectorReading};

    ghost Value = { VectorReading };

    ghost view = { λ t. record { width = t.line.width; limit = t.line.limit; line = t.line.number; at = t.line.at; unread = t.feed } };
}

impl VectorText {
    /// Reads vectors of this width, one bit for each input. Takes a buffer of 65,536 bytes, and looks at
    /// 1,099,511,627,776 bytes of the file at most. An error is a lack of memory.
    pub fn new(alloc: Global, width: u32) -> Result<Self, AllocError>
        ensures { IfOk result (λ t. t ≡ new_reading width 1099511627776) }
    {
        Self::with_limit(alloc, width, LIMIT)
    }

    /// Reads vectors of this width, of a file of at most so many bytes.
    pub fn with_limit(alloc: Global, width: u32, limit: u64) -> Result<Self, AllocError>
        requires { limit < 2 ^ 64 - 1 }
        ensures { IfOk result (λ t. t ≡ new_reading width limit) }
    {
        let line = Line::first(alloc, width, limit)?;
        let feed = Feed::new(alloc)?;
        Ok(VectorText { line, feed })
    }

    /// The bytes that were read from the store and aren't looked at yet: behind the line of the last vector.
    pub fn unread(&self) -> &[u8]
        ensures { result.now ≡ self.now.unread }
    {
        self.feed.unread()
    }

    /// Reads the next vector into `row`, which has one place for each input, where the unread bytes end its line: no
    /// store is asked for bytes. False leaves all as it was.
    pub fn next_unread(&mut self, row: &mut [bool]) -> bool
        requires { length row.old ≡ self.old.width }
        ensures vector { result ≡ true → GivesUnread row.new self.old self.new }
        ensures kept { result ≡ false → (self.new ≡ self.old) × (row.new ≡ row.old) }
        ensures width { self.new.width ≡ self.old.width }
        ensures limit { self.new.limit ≡ self.old.limit }
    {
        let more = read_here(&mut self.line, &mut self.feed);
        if more {
            self.line.put(row);
        }
        more
    }

    /// Reads the next vector of the store's current file into `row`, which has one place for each input. False
    /// says that the file has no more vectors. Takes no memory.
    ///
    /// The store has to stand where the last call left it, and is asked for bytes only while those before, unread
    /// ones included, end no vector's line and have no fault. After a false or an error nothing is left to read.
    ///
    /// # Errors
    ///
    /// `Text` at the first fault of the file, once the vectors before it were given; `Failed` where the store
    /// failed. Either leaves `row` as it was.
    pub fn next<S: Store>(&mut self, store: &mut S, row: &mut [bool]) -> Result<bool, VectorsFail>
        requires current { IsSome (S.store_state store.old).current }
        requires width { length row.old ≡ self.old.width }

        ensures gives { IfOk result (λ more. NextGives more row.new self.old self.new (S.store_state store.old) (S.store_state store.new)) }
        ensures refused { IfErr result (λ e. NextFails e self.old (S.store_state store.old) (S.store_state store.new)) }
        ensures row { OnErr result (row.new ≡ row.old) }
        ensures width { self.new.width ≡ self.old.width }
        ensures limit { self.new.limit ≡ self.old.limit }
        ensures unread { length self.new.unread ≤ 65536 }
        ensures moved { OnOk result (HasMoved self.old self.new (S.store_state store.old) (S.store_state store.new)) }
        ensures undecided { HasAsked self.old (S.store_state store.old) (S.store_state store.new) }
        ensures onward { IfOk result (λ more. GoesFurther more self.old self.new) }
        ensures stopped { IfErr result (λ e. StopsWithin e (S.store_state store.old) (S.store_state store.new)) }
        ensures current { OnOk result (IsSome (S.store_state store.new).current) }
        ensures contents { (S.store_state store.new).contents ≡ (S.store_state store.old).contents }
        ensures asked { (S.store_state store.new).asked ≡ (S.store_state store.old).asked }
        ensures later { (S.store_state store.old).failures ≤ (S.store_state store.new).failures }
    {
        self.line.begin();
        let more = read_vector(&mut self.line, &mut self.feed, store)?;
        if more {
            self.line.put(row);
        }
        Ok(more)
    }
}

// Gets more bytes where none is unread. False says that the file has ended.
fn refill<S: Store>(feed: &mut Feed, store: &mut S) -> Result<bool, VectorsFail>
    requires current { IsSome (S.store_state store.old).current }

    ensures gives { IfOk result (λ more. IsRefilled more feed.old feed.new (S.store_state store.old) (S.store_state store.new)) }
    ensures room { length feed.new ≤ 65536 }
    ensures refused { IfErr result (λ e. IsStoreFail e (S.store_state store.old) (S.store_state store.new)) }
    ensures late { OnErr result (feed.old ≡ []) }
    ensures contents { (S.store_state store.new).contents ≡ (S.store_state store.old).contents }
    ensures asked { (S.store_state store.new).asked ≡ (S.store_state store.old).asked }
    ensures later { (S.store_state store.old).failures ≤ (S.store_state store.new).failures }
{
    if !feed.unread().is_empty() {
        return Ok(true);
    }
    let count = feed.fill(store)?;
    Ok(count > 0)
}

// Reads unread bytes up to the end of a vector's line or a fault.
fn read_unread(line: &mut Line, feed: &mut Feed) -> Step
    ensures read { HasReadOn result line.old feed.old line.new feed.new }
    ensures room { length feed.new ≤ 65536 }
{
    let (count, step) = line.read(feed.unread());
    feed.skip(count);
    step
}

// Reads a vector's line where the unread bytes end it. False goes back to where the line begins.
fn read_here(line: &mut Line, feed: &mut Feed) -> bool
    ensures vector { result ≡ true → HasReadOn Step.Vector (begun line.old) feed.old line.new feed.new }
    ensures room { length feed.new ≤ 65536 }
    ensures kept { result ≡ false → reading_of line.new feed.new ≡ reading_of line.old feed.old }
    ensures width { line.new.width ≡ line.old.width }
    ensures limit { line.new.limit ≡ line.old.limit }
{
    let (at, number) = line.place();
    line.begin();
    let (count, step) = line.read(feed.unread());
    match step {
        Step::Vector => {
            feed.skip(count);
            true
        }
        _ => {
            line.go_back(at, number);
            false
        }
    }
}

// What a step answers.
fn answer(step: Step, line: u64) -> Result<bool, VectorsFail>
    ensures { result ≡ answer_of step line }
{
    match step {
        Step::Onward => Ok(false),
        Step::Vector => Ok(true),
        Step::Fault(kind) => Err(VectorsFail::Text { line, kind }),
    }
}

// Reads on to the end of the next vector's line, if there is one.
fn read_vector<S: Store>(
    line: &mut Line,
    feed: &mut Feed,
    store: &mut S,
) -> Result<bool, VectorsFail>
    requires current { IsSome (S.store_state store.old).current }

    ensures room { length feed.new ≤ 65536 }
    ensures answered { HasAnswered result line.old feed.old line.new feed.new (S.store_state store.old) (S.store_state store.new) }
{
    'pieces: loop {
        let number = line.number();
        if !refill(feed, store)? {
            return answer(line.end(), number);
        }
        match read_unread(line, feed) {
            Step::Onward => {}
            step => return answer(step, line.number()),
        }
    }
}
