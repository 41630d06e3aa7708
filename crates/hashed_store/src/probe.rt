// Where a probe of the buckets ended: at the bucket that holds the number, at the first free one, or nowhere. Three cases
// with names, since a Result of an Option would not say which is which.
#[derive(Clone, Copy)]
pub enum Probe {
    Held(usize),
    Free(usize),
    Full,
}
