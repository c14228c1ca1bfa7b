/// Where a record of a set stands.
#[derive(Clone, Copy, Debug, PartialEq, Eq)]
pub struct Place {
    pub set: u64,
    /// How many records of the set stand before it.
    pub position: u16,
    /// The number of its marker's block, in each zone of the set.
    pub block: u32,
}
