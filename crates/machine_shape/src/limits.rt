//! Which counts make a shape.
ghost use Rattle.std.specs.Prelude.{◌≡◌, ◌+◌, ◌*◌, ◌<◌, ◌≤◌, ◌^◌, false, true, IfOk, IfErr, IfSome, IfNone};
ghost use Rattle.machine_shape.specs.Bounds.{most_closed, most_faults, most_repaired, most_text, most_ticks};
ghost use Rattle.machine_shape.specs.Counts.{IsFull, levels_from};
ghost use Rattle.machine_shape.specs.Limits.{HasZero, IsFirstZero, IsShapeFault, IsSmallFault, MakeShape, MakeSmall};
ghost use Rattle.machine_shape.specs.Limits.{is_small};
ghost use Rattle.machine_shape.specs.Walk.{size, wires_in, crosses_in, tables_in};
ghost use Rattle.machine_shape.specs.declared.Field.{Field};

use crate::{Counts, Field, LimitedCount, Shape, ShapeFault};

/// The first field with a count of 0.
fn first_zero(counts: Counts) -> Option<Field>
    ensures found { IfSome result (λ field. IsFirstZero counts field) }
    ensures none { IfNone result ((field : Field) → ¬ HasZero counts field) }
    ensures full { IfNone result (IsFull counts) }
{
    if counts.modules == 0 {
        Some(Field::Modules)
    } else if counts.chips == 0 {
        Some(Field::Chips)
    } else if counts.hextants == 0 {
        Some(Field::Hextants)
    } else if counts.tables == 0 {
        Some(Field::Tables)
    } else if counts.ports.contains(&0) {
        Some(Field::Ports)
    } else if counts.lines.contains(&0) {
        Some(Field::Lines)
    } else if counts.pins == 0 {
        Some(Field::Pins)
    } else {
        None
    }
}

/// How many a node has with all below it, where it has so many of its own and each child so many.
fn with_children(own: u128, children: u16, each: u128) -> u128
    requires few_own { own < 2 ^ 100 }
    requires few_each { each < 2 ^ 100 }
    ensures sum { result ≡ own + children * each }
    ensures within { result ≤ own + 65535 * each }
{
    own + children as u128 * each
}

/// How many tables a machine of these counts has.
#[tactic(auto, unfolding(crate::specs::Counts::levels_from))]
fn tables_from(c: Counts) -> u128
    ensures { result ≡ size tables_in (levels_from c) }
{
    let hextant = with_children(0, c.tables, 1);
    let chip = with_children(0, c.hextants, hextant);
    let module = with_children(0, c.chips, chip);
    with_children(0, c.modules, module)
}

/// How many wires it has.
#[tactic(auto, unfolding(crate::specs::Counts::levels_from))]
fn wires_from(c: Counts) -> u128
    ensures { result ≡ size wires_in (levels_from c) }
{
    let hextant = with_children(c.ports[2] as u128 + c.lines[3] as u128, c.tables, 7);
    let chip = with_children(c.ports[1] as u128 + c.lines[2] as u128, c.hextants, hextant);
    let module = with_children(c.ports[0] as u128 + c.lines[1] as u128, c.chips, chip);
    with_children(c.pins as u128 + c.lines[0] as u128, c.modules, module)
}

/// How many crosspoints a crossbar has: its node's ports and those of the children, by its lines.
fn crossbar(ports: u16, children: u16, each: u16, lines: u16) -> u128
    ensures product { result ≡ (ports + children * each) * lines }
    ensures within { result < 2 ^ 50 }
{
    (ports as u128 + children as u128 * each as u128) * lines as u128
}

/// How many crosspoints it has.
#[tactic(auto, unfolding(crate::specs::Counts::levels_from))]
fn crosses_from(c: Counts) -> u128
    ensures { result ≡ size crosses_in (levels_from c) }
{
    let hextant = crossbar(c.ports[2], c.tables, 7, c.lines[3]);
    let chip = with_children(
        crossbar(c.ports[1], c.hextants, c.ports[2], c.lines[2]),
        c.hextants,
        hextant,
    );
    let module = with_children(
        crossbar(c.ports[0], c.chips, c.ports[1], c.lines[1]),
        c.chips,
        chip,
    );
    with_children(
        crossbar(c.pins, c.modules, c.ports[0], c.lines[0]),
        c.modules,
        module,
    )
}

/// Whether a machine of these counts is small.
#[tactic(auto, unfolding(crate::specs::Limits::is_small))]
fn is_small_by(counts: Counts) -> bool
    ensures { result ≡ is_small counts }
{
    tables_from(counts) <= 4096 && wires_from(counts) <= 16384 && crosses_from(counts) <= 4194304
}

/// The first limit of small machines that is passed, and by which number. Their pins are among their wires.
fn first_passed(counts: Counts) -> Option<ShapeFault>
    requires { IsFull counts }
    ensures found { IfSome result (λ fault. IsSmallFault counts fault) }
    ensures none { IfNone result ((size tables_in (levels_from counts) ≤ 4096) × (size wires_in (levels_from counts) ≤ 16384)
        × (size crosses_in (levels_from counts) ≤ 4194304)) }
{
    let tables = tables_from(counts);
    if tables > 4096 {
        return Some(ShapeFault::Limit {
            which: LimitedCount::Tables,
            value: tables,
        });
    }
    let wires = wires_from(counts);
    if wires > 16384 {
        return Some(ShapeFault::Limit {
            which: LimitedCount::Wires,
            value: wires,
        });
    }
    let crosses = crosses_from(counts);
    if crosses > 4194304 {
        return Some(ShapeFault::Limit {
            which: LimitedCount::Crosspoints,
            value: crosses,
        });
    }
    None
}

/// The first limit of the other machines that is passed, and by which number. A small one passes none.
fn first_passed_by_large(counts: Counts) -> Option<ShapeFault>
    requires { IsFull counts }
    ensures found { IfSome result (λ fault. IsShapeFault counts fault) }
    ensures none { IfNone result ((size tables_in (levels_from counts) ≤ 65536) × (size wires_in (levels_from counts) ≤ 1310720)
        × (size crosses_in (levels_from counts) ≤ 268435456) × (is_small counts ≡ false → counts.pins ≤ 8192)) }
{
    if is_small_by(counts) {
        return None;
    }
    let tables = tables_from(counts);
    if tables > 65536 {
        return Some(ShapeFault::Limit {
            which: LimitedCount::Tables,
            value: tables,
        });
    }
    let wires = wires_from(counts);
    if wires > 1310720 {
        return Some(ShapeFault::Limit {
            which: LimitedCount::Wires,
            value: wires,
        });
    }
    let crosses = crosses_from(counts);
    if crosses > 268435456 {
        return Some(ShapeFault::Limit {
            which: LimitedCount::Crosspoints,
            value: crosses,
        });
    }
    if counts.pins > 8192 {
        return Some(ShapeFault::Limit {
            which: LimitedCount::Pins,
            value: u128::from(counts.pins),
        });
    }
    None
}

impl Shape {
    /// The small shape of a machine of these counts. It is refused exactly where a count is 0, with the first such
    /// field, or where none is and a limit of small shapes is passed, with the first such limit and the number that
    /// passes it.
    pub fn new(counts: Counts) -> Result<Shape, ShapeFault>
        ensures made { IfOk result (λ shape. (shape.counts ≡ counts) × MakeSmall counts) }
        ensures small { IfOk result (λ shape. is_small shape.counts ≡ true) }
        ensures refused { IfErr result (λ fault. IsSmallFault counts fault) }
    {
        if let Some(field) = first_zero(counts) {
            return Err(ShapeFault::Zero { field });
        }
        if let Some(fault) = first_passed(counts) {
            return Err(fault);
        }
        Ok(Shape { counts })
    }

    /// The shape of a machine of these counts, small or not. It is refused exactly where a count is 0, with the first
    /// such field, or where none is, the shape isn't small, and a limit of the others is passed, with the first such
    /// limit and the number that passes it.
    pub fn large(counts: Counts) -> Result<Shape, ShapeFault>
        ensures made { IfOk result (λ shape. (shape.counts ≡ counts) × MakeShape counts) }
        ensures refused { IfErr result (λ fault. IsShapeFault counts fault) }
    {
        if let Some(field) = first_zero(counts) {
            return Err(ShapeFault::Zero { field });
        }
        if let Some(fault) = first_passed_by_large(counts) {
            return Err(fault);
        }
        Ok(Shape { counts })
    }

    /// The counts that the shape was made of.
    pub fn counts(&self) -> Counts
        ensures { result ≡ self.now.counts }
    {
        self.counts
    }

    /// Whether the shape keeps the limits of small ones on tables, wires and crosspoints.
    pub fn is_small(&self) -> bool
        ensures { result ≡ is_small self.now.counts }
    {
        is_small_by(self.counts)
    }

    /// How many ticks a cycle has at most, and how many tables an image switches on: 4,096, or 65,535.
    #[tactic(auto, unfolding(crate::specs::Bounds::most_ticks))]
    pub fn most_ticks(&self) -> u16
        ensures { result ≡ most_ticks self.now }
    {
        if self.is_small() { 4096 } else { 65535 }
    }

    /// How many crosspoints an image closes at most: 1,048,576, or 3,670,016.
    #[tactic(auto, unfolding(crate::specs::Bounds::most_closed))]
    pub fn most_closed(&self) -> u32
        ensures { result ≡ most_closed self.now }
    {
        if self.is_small() { 1048576 } else { 3670016 }
    }

    /// How many crosspoints an image closes at most that is repaired: 1,000,000, or 1,048,576.
    #[tactic(auto, unfolding(crate::specs::Bounds::most_repaired))]
    pub fn most_repaired(&self) -> u32
        ensures { result ≡ most_repaired self.now }
    {
        if self.is_small() { 1000000 } else { 1048576 }
    }

    /// How many faults a set has at most: 65,536, or 16,777,216.
    #[tactic(auto, unfolding(crate::specs::Bounds::most_faults))]
    pub fn most_faults(&self) -> u32
        ensures { result ≡ most_faults self.now }
    {
        if self.is_small() { 65536 } else { 16777216 }
    }

    /// How many bytes a text of faults or of defects has at most: 16,777,216, or 1,073,741,824.
    #[tactic(auto, unfolding(crate::specs::Bounds::most_text))]
    pub fn most_text(&self) -> u64
        ensures { result ≡ most_text self.now }
    {
        if self.is_small() {
            16777216
        } else {
            1073741824
        }
    }
}
