use ga_base::{Listing, Panel, Text};

/// A report.
#[derive(Debug, Drop)]
pub struct Report {
    /// The numbers over all lines.
    pub general: General,
    /// The panels that are shown, in the panels' order.
    pub panels: PanelLists,
}

/// The numbers over all lines.
#[derive(Clone, Copy, Debug, PartialEq, Eq)]
pub struct General {
    /// The number of lines.
    pub total_requests: u64,
    /// Those that were counted.
    pub valid_requests: u64,
    /// Those that failed.
    pub failed_requests: u64,
    /// Those that were excluded.
    pub excluded_hits: u64,
    /// The number of different visitors. A visitor is one of a day.
    pub unique_visitors: u64,
    /// The sum of the counted lines' sizes in bytes.
    pub bandwidth: u64,
}

/// The rows of a panel.
#[derive(Debug, Drop)]
pub struct PanelList {
    /// The panel.
    pub panel: Panel,
    /// Its rows, in the report's order.
    pub rows: RowList,
}

/// The panels of a report.
pub type PanelLists = Listing<PanelList>;

/// A row of a panel: an item, or a group with its entries.
#[derive(Debug, Drop)]
pub struct Row {
    /// The item, or the group.
    pub item: Item,
    /// The group's entries, in the report's order; none in a panel without groups.
    pub children: Items,
}

/// The rows of a panel.
pub type RowList = Listing<Row>;

/// What was counted under keys that differ in their day alone.
#[derive(Debug, Drop)]
pub struct Item {
    /// The data, as the host; a group's name.
    pub label: Text,
    /// The method in a panel of requests, else empty.
    pub method: Text,
    /// The protocol in a panel of requests, else empty.
    pub protocol: Text,
    /// The number of lines.
    pub hits: u64,
    /// The number of different visitors. A visitor is one of a day.
    pub visitors: u64,
    /// The sum of the lines' sizes in bytes.
    pub bytes: u64,
    /// The sum of the lines' times in microseconds.
    pub micros: u64,
    /// The greatest of the lines' times in microseconds.
    pub max_micros: u64,
    /// The share of the valid requests, in hundredths of a percent.
    pub hits_percent: u64,
    /// The share of the unique visitors, in hundredths of a percent.
    pub visitors_percent: u64,
    /// The share of the bandwidth, in hundredths of a percent.
    pub bytes_percent: u64,
}

/// Items in the report's order.
pub type Items = Listing<Item>;
