/// Items after lists of others were noted among them.
#[derive(Drop)]
pub struct Extended<T> {
    /// The items.
    pub known: T,
    /// The number that each of the others has, list by list.
    pub numbers: Vec<Vec<u32>>,
}
