//! The order of ports and lines.
ghost use Rattle.machine_shape.specs.Sites.{HasSites};
ghost use Rattle.machine_shape.specs.declared.Shape.{Shape};

/// The ports and the lines of a node are those at its positions, in the order of the numbers of wires.
pub fn ports_and_lines_ascend()
    ensures { (m : Shape) → HasSites m }
{}
