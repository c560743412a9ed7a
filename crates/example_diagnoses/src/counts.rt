//! Small machines, as numbers make them.
ghost use Rattle.std.specs.Prelude.{◌≢◌};

use base_random::Draws;
use machine_shape::Counts;

/// How large machines are.
#[derive(Clone, Copy)]
pub enum Size {
    /// One or two of what a node has below it, and two to six of ports, lines and pins.
    Small,
    /// One hextant of one or two tables, and seven to nine of ports, lines and pins: enough to test tables in bulk.
    Wide,
}

// A number from one on, one of so many.
fn some(draws: &mut Draws, first: u16, many: u16) -> u16
    requires { many ≢ 0 }
{
    first.saturating_add(draws.draw(u32::from(many)) as u16)
}

// What a machine of either size has. Ports, lines and pins are from a number on, one of so many.
fn counts(draws: &mut Draws, nodes: [u16; 3], first: u16, many: u16) -> Counts
    requires { many ≢ 0 }
{
    Counts {
        modules: nodes[0],
        chips: nodes[1],
        hextants: nodes[2],
        tables: some(draws, 1, 2),
        ports: [
            some(draws, first, many),
            some(draws, first, many),
            some(draws, first, many),
        ],
        lines: [
            some(draws, first, many),
            some(draws, first, many),
            some(draws, first, many),
            some(draws, first, many),
        ],
        pins: some(draws, first, many),
    }
}

/// Draws the counts of a machine.
pub fn draw_counts(draws: &mut Draws, size: Size) -> Counts {
    match size {
        Size::Small => {
            let nodes = [some(draws, 1, 2), some(draws, 1, 2), some(draws, 1, 2)];
            counts(draws, nodes, 2, 5)
        }
        Size::Wide => counts(draws, [1, 1, 1], 7, 3),
    }
}
