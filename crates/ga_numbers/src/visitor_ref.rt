/// Whose visit a line is, as `Visitor` says it, with texts that are borrowed.
#[derive(Clone, Copy, Debug)]
pub struct VisitorRef<'a> {
    /// The client's address.
    pub host: &'a str,
    /// The day, `10000 * year + 100 * month + day`.
    pub date: u32,
    /// The user agent.
    pub agent: &'a str,
}
