//! Texts that are written.

use example_kit::TINY;
use machine_defects::{Defects, defects_text};
use machine_faults::{AddFault, Fault, FaultSet, faults_text, read_faults};
use machine_shape::{Cross, Node, Shape, Table, Wire};
use machine_text::{machine_text, read_machine};
use std::alloc::Global;

pub fn machine_text_of_tiny(alloc: Global) -> Option<bool> {
    let due =
        b"teramac 1\nmodules 1\nchips 1\nhextants 1\ntables 2\nports 4 4 4\nlines 4 4 4 4\npins 4\nend\n";
    let spread =
        b"# one\n\nteramac 1 # of\nmodules\t1\nchips 1\r\nhextants 1\n tables 2\nports 4 4 4\nlines 4 4 4 4\npins 4\nend";
    let shape = read_machine(alloc, spread).ok()?;
    let text = machine_text(alloc, &shape).ok()?;
    Some(shape.counts() == TINY && text.as_slice() == due.as_slice())
}

pub fn machine_two_forms(alloc: Global) -> Option<bool> {
    let due =
        b"teramac 1\nmodules 1\nchips 1\nhextants 1\ntables 2\nports 4 4 4\nlines 4 4 4 4\npins 4\nend\n";
    let other =
        b"teramac 2\nmodules 1\nchips 1\nhextants 1\ntables 2\nports 4 4 4\nlines 4 4 4 4\npins 4\nend\n";
    let shape = read_machine(alloc, other).ok()?;
    let text = machine_text(alloc, &shape).ok()?;
    Some(shape.counts() == TINY && text.as_slice() == due.as_slice())
}

pub fn large_counts(alloc: Global) -> Option<bool> {
    let due =
        b"teramac 2\nmodules 1\nchips 1\nhextants 1\ntables 1\nports 1 1 1\nlines 1 1 1 9000\npins 7400\nend\n";
    let shape = read_machine(alloc, due).ok()?;
    let text = machine_text(alloc, &shape).ok()?;
    let large = !shape.is_small() && shape.wires() == 16_413;
    Some(large && text.as_slice() == due.as_slice())
}

// Whether these are written in order.
fn writes_in_order(alloc: Global, set: &FaultSet) -> Option<bool> {
    let text = faults_text(alloc, set).ok()?;
    let due = b"stuck0 r.l0\nstuck1 r.p0\nbridge r.p0 r.l0\nbridge r.p1 r.l0\n";
    Some(text.as_slice() == due.as_slice())
}

// Whether a bridge that is there is refused, and a stuck wire more is taken.
fn adds(set: &mut FaultSet) -> bool {
    if set.shape().wires() <= 5 {
        return false;
    }
    let bridge = Fault::Bridge {
        a: Wire(4),
        b: Wire(1),
    };
    let refused = set.add(bridge) == Err(AddFault::Doubled);
    if set.shape().wires() <= 5 {
        return false;
    }
    let stuck = Fault::Stuck {
        wire: Wire(5),
        value: true,
    };
    refused && set.add(stuck) == Ok(()) && set.count() == 5
}

pub fn faults_text_in_order(alloc: Global) -> Option<bool> {
    let shape = Shape::new(TINY).ok()?;
    let given = b"stuck1 r.p0\nstuck0 r.l0\nbridge r.p0 r.l0\nbridge r.l0 r.p1\n";
    let mut set = read_faults(alloc, &shape, given).ok()?;
    Some(writes_in_order(alloc, &set) == Some(true) && adds(&mut set))
}

// Lists a line, a crosspoint that it touches, one that it doesn't, or a table.
fn list_one(list: &mut Defects, which: u32) {
    let shape = list.shape();
    if which == 0 && shape.wires() > 4 {
        list.list_wire(Wire(4));
    } else if which == 1 && shape.crosses() > 0 {
        list.list_cross(Cross(0));
    } else if which == 2 && shape.crosses() > 5 {
        list.list_cross(Cross(5));
    } else if which == 3 && shape.tables() > 0 {
        list.list_table(Table(0));
    }
}

// Whether the text and the numbers are as they should be where the four are listed.
fn is_right(alloc: Global, list: &Defects) -> Option<bool> {
    let due =
        b"defects 1\nshape 1 1 1 2 4 4 4 4 4 4 4 4\nwire r.l0\ncross r.p1 r.l1\ntable m0.c0.h0.t0\nend\n";
    let text = defects_text(alloc, list).ok()?;
    let written = text.as_slice() == due.as_slice();
    if list.shape().nodes() <= 1 {
        return None;
    }
    let lines = list.open_lines(Node(0)) == 2 && list.free_ports(Node(1)) == 4;
    Some(written && lines && list.free_tables() == 1 && list.free_pins() == 4)
}

// Whether all is as it should be where the four are listed in this order.
fn is_listed(alloc: Global, order: [u32; 4]) -> Option<bool> {
    let shape = Shape::new(TINY).ok()?;
    let mut list = Defects::none(alloc, shape).ok()?;
    'parts: for which in order {
        list_one(&mut list, which);
    }
    is_right(alloc, &list)
}

// Whether an order has each of the four.
fn has_each(order: [u32; 4]) -> bool {
    order.contains(&0) && order.contains(&1) && order.contains(&2) && order.contains(&3)
}

pub fn defects_text_in_order(alloc: Global) -> Option<bool> {
    let mut right = true;
    let mut orders = 0u32;
    'orders: for code in 0..256u32 {
        let order = [code / 64, code / 16 % 4, code / 4 % 4, code % 4];
        if has_each(order) {
            orders = orders.saturating_add(1);
            right = right && is_listed(alloc, order)?;
        }
    }
    Some(right && orders == 24)
}
