// The most buses of an hour, and of a network.
pub const MAX_BUSES: u16 = 32;
