// Front parts of slices, and what buffers hold before a call.

/// How many bytes of a plan a list has room for. No small site has as many meters: a length that is too long can be lent, too.
pub const LIST_LEN: usize = 8;

// Fixed places: a `Vec` would want an allocator all the way down.
/// Room for the bytes of a plan.
pub type List = [u8; LIST_LEN];

/// What buffers hold before a call, to see what the call leaves.
pub const PATTERN: u8 = 170;

/// What buffers of numbers hold before a call.
pub const NUMBER_PATTERN: i64 = 1234567;

/// The first n places, or all where there are fewer.
pub fn front<T>(s: &[T], n: usize) -> &[T] {
    &s[..n.min(s.len())]
}

/// The same places, to be written to.
pub fn front_mut<T>(s: &mut [T], n: usize) -> &mut [T] {
    let n = n.min(s.len());
    &mut s[..n]
}
