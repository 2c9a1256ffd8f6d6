// Tests whether bytes are a site image, and reads its links: the header, then one walk of each chain. No marks are kept
// of the records met: a chain that ends has none twice, a link's record has an end above 0 and a
// free one has not, so the lengths of the two chains tell that every record is in just one.
ghost use Rattle.std.specs.Prelude.{◌≡◌, true, false, cond, ◌&&◌, ◌||◌, ◌+◌, ◌-◌, ◌<◌, ◌≤◌, length, ltb, eqb, ◌==◌, MatchOption};
ghost use Rattle.std.specs.List.{list_all};
ghost use Rattle.links.specs.Links.{link_ok, nothing};
ghost use Rattle.site.specs.Layout.{SIZE, RECORDS, first, first_free};
ghost use Rattle.site.specs.Image.{named, links as links_of, valid};
ghost use Rattle.site.specs.Edits.{place as place_of};
ghost use Rattle.site.specs.Reading.{over};
ghost use Rattle.site.specs.Inner.{key, head_ok, walk_links, walk_free, links_on, last_before};

use crate::fields;
use crate::fields::Record;
use links::Link;

/// What a record holds where no link is.
pub const NO_LINK: Link = Link {
    u: 0,
    v: 0,
    weight: 0,
};

/// The array to lend for the links of an image, before any is read.
pub const NO_LINKS: [Link; 256] = [NO_LINK; 256];

/// Whether a number names a record.
// Both tests are made, as in `link_fits`.
#[tactic(auto, unfolding(crate::specs::Image::named))]
pub fn names_record(number: usize) -> bool
    ensures { result ≡ named number }
{
    (1 <= number) & (number <= fields::RECORDS)
}

// The ends u and v as one number. It rises as the ends do, by u and then by v, so that one comparison tells their order.
fn key_of(u: u8, v: u8) -> usize
    ensures { result ≡ key u v }
{
    256 * (u as usize) + (v as usize)
}

// Whether all bytes are zero.
fn all_zero(bytes: &[u8]) -> bool
    ensures { result ≡ list_all (λ b. b == 0) bytes.now }
{
    bytes.iter().all(|byte| *byte == 0)
}

// Whether the header's zero bytes are zero and its number of meters is 1 to 48. `&` keeps the proof to one path.
#[tactic(auto, using(crate::proofs::Turns::head_test))]
fn head_ok(image: &[u8]) -> bool
    requires { length image.now ≡ SIZE }
    ensures { result ≡ head_ok image.now }
{
    let zeros = all_zero(&image[fields::ZEROS_AT..fields::ZEROS_END]);
    let meters = image[fields::METERS_AT];
    (image[fields::ZERO_AT] == 0) & zeros & (1 <= meters) & (meters <= fields::METERS)
}

// Whether a record holds a link of a site of that many meters, after the ends whose key is `last`, with its zero bytes
// zero. That a weight of two bytes is at most 65,535 needs no test. All tests are made, with no branch between them:
// that is quicker where nearly all hold.
#[tactic(auto, using(crate::proofs::Turns::fits_test))]
fn link_fits(held: Record, meters: u8, last: usize) -> bool
    ensures { result ≡ (link_ok meters held.link && (eqb held.pad 0 && ltb last (key held.link.u held.link.v))) }
{
    let Link { u, v, weight } = held.link;
    let link = (1 <= u) & (u < v) & (v <= meters) & (1 <= weight);
    link & (held.pad == 0) & (last < key_of(u, v))
}

// Whether a record is zero but for next. No branch stands between the two tests, as in `link_fits`.
fn is_free(held: Record) -> bool
    ensures { result ≡ (eqb held.link.u 0 && (eqb held.link.v 0 && (eqb held.link.weight 0 && eqb held.pad 0))) }
{
    (held.link == NO_LINK) & (held.pad == 0)
}

// Whether the link chain has as many records as there are lent places and then ends, each a link's, in rising order; and
// if so, the links in these places, and the last of the records that
// stands before the ends (u, v), 0 for none. The walk waits for the next record's number at every step, so that what it
// stores and remembers costs it nothing, where a second walk would cost as much
// again. Keys in place of pairs of ends keep what the loop has in hand few enough for the registers.
// 0 for none and no Option, as in the image: see `follower` in fields.rt.
#[tactic(auto, using(crate::proofs::Sets::walk_links))]
fn walk_links(image: &[u8], meters: u8, u: u8, v: u8, links: &mut [Link]) -> Option<usize>
    requires { (length image.now ≡ SIZE) × (length links.old ≤ RECORDS) }
    ensures { MatchOption result (walk_links image.now meters (length links.old) (first image.now) 0 0 ≡ false) (λ place. (walk_links image.now meters (length links.old) (first image.now) 0 0 ≡ true) × (links.new ≡ links_on image.now (length links.old) (first image.now)) × (place ≡ last_before image.now u v (length links.old) (first image.now) 0)) }
{
    let asked = key_of(u, v);
    let mut number = fields::read_word(image, fields::FIRST_AT) as usize;
    let mut last = 0;
    let mut place = 0;
    for link in links.iter_mut() {
        if !names_record(number) {
            return None;
        }
        let held = fields::read_record(image, number);
        *link = held.link;
        if !link_fits(held, meters, last) {
            return None;
        }
        last = key_of(held.link.u, held.link.v);
        if last < asked {
            place = number;
        }
        number = held.next as usize;
    }
    if number == 0 { Some(place) } else { None }
}

// Whether the free chain has `count` records and then ends, each zero but for next.
#[tactic(auto, using(crate::proofs::Sets::frees_ok))]
fn frees_ok(image: &[u8], count: usize) -> bool
    requires { length image.now ≡ SIZE }
    ensures { result ≡ walk_free image.now count (first_free image.now) }
{
    let mut number = fields::read_word(image, fields::FREE_AT) as usize;
    for _ in 0..count {
        if !names_record(number) {
            return false;
        }
        let held = fields::read_record(image, number);
        if !is_free(held) {
            return false;
        }
        number = held.next as usize;
    }
    number == 0
}

/// Where bytes are a site image, its links in the front places of the array, and the record after which the link with
/// ends u and v stands, or is to stand; 0 for the front of the chain.
// 0 and no Option, as in the image: see `follower` in fields.rt.
#[tactic(auto, using(crate::proofs::Sets::read_image))]
pub fn read_image(image: &[u8], u: u8, v: u8, links: &mut [Link; 256]) -> Option<usize>
    ensures { MatchOption result (valid image.now ≡ false) (λ place. (valid image.now ≡ true) × (links.new ≡ over (links_of image.now) links.old) × (place ≡ place_of image.now u v)) }
{
    if image.len() != fields::IMAGE_LEN {
        return None;
    }
    if !head_ok(image) {
        return None;
    }
    let count = fields::read_word(image, fields::COUNT_AT) as usize;
    if fields::RECORDS < count {
        return None;
    }
    let place = walk_links(image, image[fields::METERS_AT], u, v, &mut links[..count])?;
    if frees_ok(image, fields::RECORDS - count) {
        Some(place)
    } else {
        None
    }
}

/// Whether bytes are a site image.
pub fn is_image(image: &[u8]) -> bool
    ensures { result ≡ valid image.now }
{
    // No place is asked for: no link stands before (0, 0), and a None would be made the same ahead of the walk.
    let mut links = NO_LINKS;
    read_image(image, 0, 0, &mut links).is_some()
}
