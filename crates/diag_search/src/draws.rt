//! What the search draws by chance.

/// The state that the draws begin with.
const BEGIN: u64 = 0x9E37_79B9_7F4A_7C15;

/// What is drawn.
#[derive(Drop)]
pub struct Draws {
    numbers: base_random::Draws,
}

impl Draws {
    /// The generator.
    pub(crate) fn new() -> Draws {
        Draws {
            numbers: base_random::Draws::new(BEGIN),
        }
    }

    // The next number, of 31 bits.
    fn next(&mut self) -> u64 {
        self.numbers.step() >> 33
    }

    /// A number below the count, or 0 where that is 0.
    pub(crate) fn draw_below(&mut self, count: usize) -> usize {
        self.numbers.portion(count)
    }

    /// A number below the count, or 0 where that is 0.
    pub(crate) fn draw_under(&mut self, count: u32) -> u32 {
        u32::try_from(self.numbers.portion(count as usize)).unwrap_or(0)
    }

    /// One of two, each as often.
    pub fn coin(&mut self) -> bool {
        (self.next() >> 7) & 1 == 1
    }

    /// Puts these into an order that is drawn.
    pub(crate) fn shuffle<T: Copy>(&mut self, items: &mut Vec<T>) {
        'places: for place in 0..items.len() {
            let other = self.draw_below(place.saturating_add(1));
            if place < items.len() && other < items.len() {
                let here = items[place];
                items[place] = items[other];
                items[other] = here;
            }
        }
    }
}
