//! Ways of decomposition.

/// How covers become ANDs: narrow ones by their cells, or all by their rows; an AND of many literals in pairs, the lowest first,
/// in sixes, or in a chain; or narrow covers as multiplexers where they can't be split.
#[derive(Clone, Copy, Debug, PartialEq, Eq)]
pub enum Way {
    /// By cells, in pairs.
    Pairs,
    /// By cells, the lowest first.
    Lowest,
    /// By cells, in sixes, as many as a table reads, the lowest first.
    Sixes,
    /// By cells, in chains.
    Chain,
    /// By cells, as multiplexers.
    Multiplexers,
    /// By rows, in pairs.
    RowsInPairs,
    /// By rows, the lowest first.
    RowsLowest,
    /// By rows, in chains.
    RowsInChains,
}

/// How an AND of many literals is made of ANDs of two.
#[derive(Clone, Copy, Debug, PartialEq, Eq)]
pub enum Join {
    Pairs,
    Lowest,
    Sixes,
    Chain,
}

impl Way {
    /// How this way joins literals.
    pub fn join(self) -> Join {
        match self {
            Way::Pairs | Way::Multiplexers | Way::RowsInPairs => Join::Pairs,
            Way::Lowest | Way::RowsLowest => Join::Lowest,
            Way::Sixes => Join::Sixes,
            Way::Chain | Way::RowsInChains => Join::Chain,
        }
    }

    /// Whether rows are joined and contained ones dropped before they are factored: some sums come out smaller without.
    pub fn joins_rows(self) -> bool {
        match self {
            Way::Lowest | Way::RowsInPairs | Way::RowsInChains => true,
            Way::Pairs | Way::Sixes | Way::Chain | Way::Multiplexers | Way::RowsLowest => false,
        }
    }

    /// Whether narrow covers too are read by their rows.
    pub fn by_rows(self) -> bool {
        match self {
            Way::RowsInPairs | Way::RowsLowest | Way::RowsInChains => true,
            Way::Pairs | Way::Lowest | Way::Sixes | Way::Chain | Way::Multiplexers => false,
        }
    }
}
