// The calls of the library: no other file names where they come from.
use crate::edits::Edit;
pub use links::Link;
// An Ask has numbers, as C does: wrong ones are asked for too.
pub use plans::{
    Ask, Decoded, Refusal, bit_count, constant, decode, encode, energy, fill_row, penalty, row,
    row_refusal,
};
use site::NO_LINKS;
pub use site::check;

/// What was read out of an image: the meters, and the links in the first `count` places. Fixed places, as the library
/// takes them: a `Vec` would want an allocator all the way down.
#[derive(Drop)]
pub struct Reading {
    pub meters: usize,
    pub count: usize,
    pub links: [Link; 256],
}

/// Makes the image that of a site with no links.
pub fn begin(image: &mut [u8], meters: usize) -> Result<(), Refusal> {
    plans::begin(image, meters as u64)
}

/// Makes an edit of the image.
pub fn edit(image: &mut [u8], edit: Edit) -> Result<(), Refusal> {
    match edit {
        Edit::Begin { meters } => begin(image, meters),
        Edit::Remove { u, v } => plans::remove(image, u as u64, v as u64),
        Edit::Add { u, v, weight } => plans::add(image, u as u64, v as u64, weight),
    }
}

/// Reads the image.
pub fn read(image: &[u8]) -> Result<Reading, Refusal> {
    let mut links = NO_LINKS;
    let read = site::read(image, &mut links)?;
    Ok(Reading {
        meters: read.meters,
        count: read.count,
        links,
    })
}
