use ga_base::{Key, Names, Sums};

/// One key of a summary.
#[derive(Clone, Copy, Debug)]
pub struct RowView<'a> {
    /// The key.
    pub key: &'a Key,
    /// What is summed under it.
    pub sums: Sums,
    /// The names of its visitors, which rise.
    pub names: &'a Names,
}
