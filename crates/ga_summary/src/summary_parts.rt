use ga_base::{Key, Listing, Names, Sums, Totals};

/// What a summary is made from, as it is read from elsewhere.
#[derive(Clone, Debug, Drop)]
pub struct SummaryParts {
    /// The totals over all lines.
    pub totals: Totals,
    /// A row for each key, which should rise by their keys.
    pub rows: PartRows,
}

/// One key with what is counted under it.
#[derive(Clone, Debug, Drop)]
pub struct PartRow {
    /// The key.
    pub key: Key,
    /// What is summed under it.
    pub sums: Sums,
    /// The names of its visitors, which should rise.
    pub names: Names,
}

/// A list of rows.
pub type PartRows = Listing<PartRow>;
