//! A crossbar that was tested.
ghost use Rattle.std.specs.Prelude.{◌≡◌};
ghost use Rattle.diag_published.specs.Held.{wire_numbers, pair_numbers};

use diag_tests::Trunk;
use machine_shape::{Node, Wire};
use std::marker::Model;

/// A crossbar that was tested: its node, the trunk down to it, which of its lines and taps are good, and two lines that
/// are good at all of these taps.
#[derive(Drop)]
pub struct Tested {
    node: Node,
    trunk: Trunk,
    lines: Vec<Wire>,
    taps: Vec<Wire>,
    open_pair: Option<(Wire, Wire)>,
}

impl Model for Tested {
    ghost use Rattle.diag_published.specs.Held.{Findings, coded_findings, wire_numbers, pair_numbers};

    ghost Value = { Findings };

    ghost coded = { coded_findings };

    ghost view = { λ t. record {
      node = t.node.0;
      left = t.trunk.left;
      right = t.trunk.right;
      lines = wire_numbers t.lines.items;
      taps = wire_numbers t.taps.items;
      open_pair = pair_numbers t.open_pair;
    } };
}

impl Tested {
    /// What was found of a crossbar.
    pub fn new(
        node: Node,
        trunk: Trunk,
        lines: Vec<Wire>,
        taps: Vec<Wire>,
        open_pair: Option<(Wire, Wire)>,
    ) -> Tested
        ensures { result ≡ record {
          node = node.0;
          left = trunk.left;
          right = trunk.right;
          lines = wire_numbers lines.items;
          taps = wire_numbers taps.items;
          open_pair = pair_numbers open_pair;
        } }
    {
        Tested {
            node,
            trunk,
            lines,
            taps,
            open_pair,
        }
    }

    /// The node of the crossbar.
    pub fn node(&self) -> Node
        ensures { result.0 ≡ self.now.node }
    {
        self.node
    }

    /// The two routes down to the crossbar.
    pub fn trunk(&self) -> &Trunk
        ensures left { result.now.left ≡ self.now.left }
        ensures right { result.now.right ≡ self.now.right }
    {
        &self.trunk
    }

    /// The good lines, ascending.
    pub fn lines(&self) -> &[Wire]
        ensures { wire_numbers result.now ≡ self.now.lines }
    {
        &self.lines
    }

    /// The good taps, ascending.
    pub fn taps(&self) -> &[Wire]
        ensures { wire_numbers result.now ≡ self.now.taps }
    {
        &self.taps
    }

    /// Two different good lines that are good at all good taps.
    pub fn open_pair(&self) -> Option<(Wire, Wire)>
        ensures { pair_numbers result ≡ self.now.open_pair }
    {
        self.open_pair
    }
}
