// A value for each of two channels.

#[derive(Clone, Copy, Default)]
pub struct Pair<T> {
    pub l: T,
    pub r: T,
}
