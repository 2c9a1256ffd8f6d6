// Reads and stores the fields of an image. No other file of the code says where a field stands.
// An image stays a slice whose length the contracts ask for, and is not made an array first: each call would convert it,
// and what a converted `&mut` slice holds afterwards is told only by way of that array. That is no plainer.
// Record numbers stay usize with a bound: a type for them would be unwrapped at each place.
ghost use Rattle.std.specs.Prelude.{◌≡◌, ◌+◌, ◌<◌, ◌≤◌, length};
ghost use Rattle.site.specs.Layout.{SIZE, RECORDS, record_at, word, next, pad, set_word, set_record};
ghost use Rattle.site.specs.Image.{link_at};
ghost use Rattle.site.specs.Edits.{slot, after};

use links::Link;

/// The bytes of an image.
pub const IMAGE_LEN: usize = 2064;

/// The records, which are numbered from 1.
pub const RECORDS: usize = 256;

/// The most meters that a site has.
pub const METERS: u8 = 48;

/// Where the number of meters stands.
pub const METERS_AT: usize = 0;

/// The first zero byte of the header, which stands by itself.
pub const ZERO_AT: usize = 1;

/// Where the other zero bytes of the header begin.
pub const ZEROS_AT: usize = 8;

/// Where they end: the byte behind the last.
pub const ZEROS_END: usize = 16;

/// Where the number of the first link's record stands.
pub const FIRST_AT: usize = 2;

/// Where the number of the first free record stands.
pub const FREE_AT: usize = 4;

/// Where the number of links stands.
pub const COUNT_AT: usize = 6;

/// What a record holds: a link, the number of the next record, and the number that its two zero bytes make.
#[derive(Clone, Copy, Debug, PartialEq, Eq)]
pub struct Record {
    pub link: Link,
    pub next: u16,
    pub pad: u16,
}

/// The two-byte field at byte `at`, little-endian.
#[tactic(auto, unfolding(crate::specs::Layout::word, crate::specs::Layout::byte))]
pub fn read_word(image: &[u8], at: usize) -> u16
    requires { at + 1 < length image.now }
    ensures { result ≡ word image.now at }
{
    u16::from_le_bytes([image[at], image[at + 1]])
}

// The byte at which the record of that number begins.
fn record_at(number: usize) -> usize
    requires { number ≤ RECORDS }
    ensures { (result ≡ record_at number) × (result + 8 ≤ SIZE) }
{
    8 * number + 8
}

/// What the record of that number holds. A number below 1 reads bytes of the header, and no caller asks for it.
#[tactic(auto, using(crate::proofs::Sets::read_record))]
pub fn read_record(image: &[u8], number: usize) -> Record
    requires { (length image.now ≡ SIZE) × (number ≤ RECORDS) }
    ensures { (result.link ≡ link_at image.now number) × (result.next ≡ next image.now number) × (result.pad ≡ pad image.now number) }
{
    let at = record_at(number);
    let link = Link {
        u: image[at],
        v: image[at + 1],
        weight: read_word(image, at + 2),
    };
    Record {
        link,
        next: read_word(image, at + 4),
        pad: read_word(image, at + 6),
    }
}

/// Where the number of the record after a place stands. A place in the link chain is a record's number, or 0 for the
/// front, and the header has the number of the first.
#[tactic(auto, unfolding(crate::specs::Edits::slot))]
pub fn slot_of(place: usize) -> usize
    requires { place ≤ RECORDS }
    ensures { (result ≡ slot place) × (result + 2 < SIZE) }
{
    if place == 0 {
        FIRST_AT
    } else {
        record_at(place) + 4
    }
}

/// The number of the record after a place in the link chain, 0 for none.
// 0 and no Option: the image itself has 0 where a chain begins in the header or ends.
#[tactic(auto, unfolding(crate::specs::Edits::after))]
pub fn follower(image: &[u8], place: usize) -> u16
    requires { (length image.now ≡ SIZE) × (place ≤ RECORDS) }
    ensures { result ≡ after image.now place }
{
    read_word(image, slot_of(place))
}

/// Stores the two-byte field at byte `at`.
#[tactic(auto, unfolding(crate::specs::Layout::set_word))]
pub fn put_word(image: &mut [u8], at: usize, value: u16)
    requires { at + 1 < length image.old }
    ensures { image.new ≡ set_word image.old at value }
{
    let [low, high] = value.to_le_bytes();
    image[at] = low;
    image[at + 1] = high;
}

/// Stores what the record of that number is to hold, but for its two zero bytes, which stay as they are.
#[tactic(auto, unfolding(crate::specs::Layout::set_record))]
pub fn put_record(image: &mut [u8], number: usize, held: Record)
    requires { (length image.old ≡ SIZE) × (number ≤ RECORDS) }
    ensures { image.new ≡ set_record image.old number held.link.u held.link.v held.link.weight held.next }
{
    let at = record_at(number);
    image[at] = held.link.u;
    image[at + 1] = held.link.v;
    put_word(image, at + 2, held.link.weight);
    put_word(image, at + 4, held.next);
}
