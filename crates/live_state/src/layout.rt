use hash_rows::Shape;

/// What a state is made for: the shape of its table, the number of workers, the entries of its
/// heavy table, and the least estimate of a heavy flow.
#[derive(Clone, Copy, Debug, PartialEq, Eq)]
pub struct Layout {
    pub shape: Shape,
    pub workers: u32,
    pub heavy: u32,
    pub least: i64,
}
