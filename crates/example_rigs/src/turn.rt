//! Readings, one of which is turned.
ghost use Rattle.std.specs.Prelude.{◌≡◌, ◌+◌, ◌-◌, ◌^◌, ◌<◌, min, None, IfSome, length, [], ◌∷◌};
ghost use Rattle.rig.specs.Rig.{KeepLengths};
ghost use Rattle.example_rigs.specs.Turns.{Passes, turned};

use machine_shape::Pin;
use rig::PinBits;

/// Which reading is turned, and how many there were.
#[derive(Drop)]
pub struct Turn {
    // Its number, from 1; with 0 none is turned.
    number: u64,
    readings: u64,
    // How many readings there were in the session, and the place there of the one that was turned.
    made: u64,
    place: Option<u64>,
}

impl Turn {
    /// Turns the reading of this number.
    pub fn new(number: u64) -> Turn
        ensures made { result.made ≡ 0 }
        ensures place { result.place ≡ None }
    {
        Turn {
            number,
            readings: 0,
            made: 0,
            place: None,
        }
    }

    /// A session begins.
    pub fn begin(&mut self)
        ensures made { self.new.made ≡ 0 }
        ensures place { self.new.place ≡ None }
    {
        self.made = 0;
        self.place = None;
    }

    // Counts so many readings, and tells which of them is due.
    fn count(&mut self, count: u64) -> Option<u64>
        ensures place { self.new.place ≡ self.old.place }
        ensures made { self.new.made ≡ min (self.old.made + count) (2 ^ 64 - 1) }
        ensures due { IfSome result (λ k. (k < count) × (self.old.made + k < 2 ^ 64 - 1) × (self.old.place ≡ None)) }
    {
        let before = self.readings;
        let made = self.made;
        self.readings = before.saturating_add(count);
        self.made = made.saturating_add(count);
        if self.place.is_some() || self.number <= before {
            return None;
        }
        let k = self.number - before - 1;
        if count <= k || u64::MAX - made <= k {
            return None;
        }
        Some(k)
    }

    /// Passes a reading on.
    pub fn pass(&mut self, read: &mut PinBits)
        ensures { Passes self.old self.new (read.old ∷ []) (read.new ∷ []) }
    {
        let made = self.made;
        if let Some(_) = self.count(1) {
            turn_first_bit(read);
            self.place = Some(made);
        }
    }

    /// Passes readings on.
    pub fn pass_all(&mut self, reads: &mut [PinBits])
        ensures passes { Passes self.old self.new reads.old reads.new }
        ensures lengths { KeepLengths reads.old reads.new }
    {
        let made = self.made;
        if let Some(k) = self.count(reads.len() as u64) {
            turn_first_bit(&mut reads[k as usize]);
            self.place = Some(made + k);
        }
    }
}

// Turns the first bit.
fn turn_first_bit(reading: &mut PinBits)
    ensures turned { reading.new ≡ turned reading.old }
    ensures length { length reading.new ≡ length reading.old }
{
    if 0 < reading.len() {
        let bit = reading.get(Pin(0));
        reading.set(Pin(0), !bit);
    }
}
