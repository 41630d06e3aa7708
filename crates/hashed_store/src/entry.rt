// One account in the index of a hashed store: its number, and the slot where the account lies. Number 0 marks a free
// bucket: the index is lent by the caller, and an Option would double it.
#[derive(Clone, Copy, PartialEq, Eq, Debug, Default)]
pub struct Entry {
    pub number: u32,
    pub slot: u32,
}
