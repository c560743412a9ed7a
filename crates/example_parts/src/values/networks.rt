//! Plain networks and their depths.

ghost use Rattle.map_network.specs.Networks.{IsNetwork};

use crate::plans::figures::network_of;
use design_blif::read_blif;
use map_network::{Network, Source, depth, merge_tables, spread_of};
use std::alloc::Global;

/// A table: its inputs, its cells, and whether it is latched.
type Wanted<'a> = (&'a [Source], u64, bool);

/// The cells that give what pin 0 reads.
const EACH: u64 = 0xAAAA_AAAA_AAAA_AAAA;

// Whether the network has these tables.
fn has_tables(network: &Network, wanted: &[Wanted]) -> bool {
    let tables = network.tables.as_slice();
    let mut right = tables.len() == wanted.len();
    'tables: for (table, (ins, cells, latched)) in tables.iter().zip(wanted) {
        right = right
            && table.ins.as_slice() == *ins
            && table.cells == *cells
            && table.latched == *latched;
    }
    right
}

// Whether a network has so many levels.
fn has_levels(alloc: Global, network: &Network, levels: u32) -> bool
    requires { IsNetwork network.now }
{
    match depth(alloc, network) {
        Ok(found) => found == levels,
        Err(_) => false,
    }
}

// Whether the plain network of a design has these tables, and so many levels.
fn is_plain(alloc: Global, text: &[u8], wanted: &[Wanted], levels: u32) -> Option<bool> {
    let network = network_of(alloc, text)?;
    Some(has_tables(&network, wanted) && has_levels(alloc, &network, levels))
}

// The merged network of a design.
fn merged_of(alloc: Global, text: &[u8]) -> Option<Network> {
    let netlist = read_blif(alloc, text).ok()?;
    merge_tables(alloc, &netlist).ok()
}

// The inputs of a design of seven.
fn inputs() -> [Source; 7] {
    [
        Source::Input(0),
        Source::Input(1),
        Source::Input(2),
        Source::Input(3),
        Source::Input(4),
        Source::Input(5),
        Source::Input(6),
    ]
}

pub fn repeated_input(alloc: Global) -> Option<bool> {
    let text =
        b".model v\n.inputs a b c d e\n.outputs y\n.names a b a c d e y\n1-1--- 1\n0-1--- 1\n.end\n";
    let inputs = inputs();
    let wanted: [Wanted; 1] = [(&inputs[..5], EACH, false)];
    is_plain(alloc, text, &wanted, 1)
}

pub fn seven_input_nand(alloc: Global) -> Option<bool> {
    let text =
        b".model n\n.inputs a b c d e f g\n.outputs y\n.names a b c d e f g y\n1111111 0\n.end\n";
    let inputs = inputs();
    let wanted: [Wanted; 4] = [
        (&inputs[..6], 0x8000_0000_0000_0000, false),
        (&inputs[6..], EACH, false),
        (
            &[Source::Table(0), Source::Table(1)],
            0x8888_8888_8888_8888,
            false,
        ),
        (&[Source::Table(2)], 0x5555_5555_5555_5555, false),
    ];
    is_plain(alloc, text, &wanted, 3)
}

// The table of the latch reads that of the cover.
pub fn toggling_latch(alloc: Global) -> Option<bool> {
    let text = b".model t\n.outputs q\n.names q d\n0 1\n.latch d q\n.end\n";
    let wanted: [Wanted; 2] = [
        (&[Source::Table(1)], 0x5555_5555_5555_5555, false),
        (&[Source::Table(0)], EACH, true),
    ];
    is_plain(alloc, text, &wanted, 1)
}

// The cover is put into the table of the latch, which reads itself then.
pub fn merged_latch(alloc: Global) -> Option<bool> {
    let text = b".model t\n.outputs q\n.names q d\n0 1\n.latch d q\n.end\n";
    let network = merged_of(alloc, text)?;
    let wanted: [Wanted; 1] = [(&[Source::Table(0)], 0x5555_5555_5555_5555, true)];
    let shown: &[Source] = &[Source::Table(0)];
    Some(has_tables(&network, &wanted) && network.outputs.as_slice() == shown)
}

// Whether both tables have these inputs, and these are their cells.
fn has_two(network: &Network, ins: &[Source], first: u64, second: u64) -> bool {
    has_tables(network, &[(ins, first, false), (ins, second, false)])
}

/// An inverter, and two tables that read it and `b`.
const TWO_READERS: &[u8] =
    b".model s\n.inputs a b\n.outputs y z\n.names a n\n0 1\n.names n b y\n11 1\n.names n b z\n1- 1\n-1 1\n.end\n";

// Whether a network has the inverter and its two readers.
fn has_readers(network: &Network) -> bool {
    let readers: &[Source] = &[Source::Table(0), Source::Input(1)];
    has_tables(
        network,
        &[
            (&[Source::Input(0)], 0x5555_5555_5555_5555, false),
            (readers, 0x8888_8888_8888_8888, false),
            (readers, 0xEEEE_EEEE_EEEE_EEEE, false),
        ],
    )
}

// Whether a network has two tables that read `a` and `b`, in either order, and shows them.
fn has_both(network: &Network) -> bool {
    let a_first = [Source::Input(0), Source::Input(1)];
    let b_first = [Source::Input(1), Source::Input(0)];
    let two = has_two(
        network,
        &a_first,
        0x4444_4444_4444_4444,
        0xDDDD_DDDD_DDDD_DDDD,
    ) || has_two(
        network,
        &b_first,
        0x2222_2222_2222_2222,
        0xBBBB_BBBB_BBBB_BBBB,
    );
    let shown: &[Source] = &[Source::Table(0), Source::Table(1)];
    two && network.outputs.as_slice() == shown
}

// Whether a network has both where it is spread.
fn has_both_spread(alloc: Global, network: &Network) -> bool
    requires { IsNetwork network.now }
{
    match spread_of(alloc, network) {
        Ok(spread) => has_both(&spread),
        Err(_) => false,
    }
}

// Whether the plain network of the design has three tables, and two where it is spread.
fn spreads(alloc: Global) -> Option<bool> {
    let network = network_of(alloc, TWO_READERS)?;
    Some(has_readers(&network) && has_both_spread(alloc, &network))
}

// The inverter is put into both tables that read it, which read `a` and `b` then, in either order.
pub fn spread_two_readers(alloc: Global) -> Option<bool> {
    let spread = spreads(alloc)?;
    let merged = merged_of(alloc, TWO_READERS)?;
    Some(spread && merged.tables.as_slice().len() == 3)
}
