//! A design that was checked.

ghost use Rattle.std.specs.Prelude.{◌≡◌};

use crate::netlist_data::NetlistData;
use std::marker::Model;

/// A design in which each signal that is read is driven, none is driven twice, and no cover is on a cycle.
#[derive(Debug, Drop)]
pub struct Netlist {
    draft: NetlistData,
    /// The covers, each after those that it reads.
    order: Vec<u32>,
}

impl Model for Netlist {
    ghost use Rattle.design_netlist.specs.declared.netlist_data.NetlistData.{NetlistData};
    ghost use Rattle.design_netlist.specs.Checks.{IsChecked};
    ghost use Rattle.design_netlist.specs.Valuations.{IsOrder};

    ghost Value = { NetlistData };

    ghost view = { λ n. n.draft };

    ghost invariant = { λ n. IsChecked n.draft × IsOrder n.draft.covers n.order.items };
}

impl Netlist {
    ghost use Rattle.design_netlist.specs.Checks.{IsChecked};
    ghost use Rattle.design_netlist.specs.Valuations.{IsOrder};

    /// A design with an order of its covers. Takes no memory.
    pub(crate) fn new(draft: NetlistData, order: Vec<u32>) -> Self
        requires checked { IsChecked draft }
        requires order { IsOrder draft.covers order.items }
        ensures { result ≡ draft }
    {
        Netlist { draft, order }
    }

    /// The design. Takes no memory.
    pub fn parts(&self) -> &NetlistData
        ensures parts { result.now ≡ self.now }
        ensures checked { IsChecked self.now }
    {
        &self.draft
    }

    /// The places of the covers, each once and each after those that it reads. Takes no memory.
    pub fn order(&self) -> &[u32]
        ensures order { IsOrder self.now.covers result.now }
        ensures checked { IsChecked self.now }
    {
        &self.order
    }
}
