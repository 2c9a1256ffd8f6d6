// The parts of begin, add and remove: what is looked up of a link, and the stores that put it in or take it out.
ghost use Rattle.std.specs.Prelude.{◌≡◌, ℕ, ◌+◌, ◌-◌, ◌<◌, ◌≤◌, length, MatchResult};
ghost use Rattle.links.specs.Links.{bad_ends, low, high, present};
ghost use Rattle.site.specs.Layout.{SIZE, RECORDS, free_at, count_at, first_free, count, set_word, set_record};
ghost use Rattle.site.specs.Image.{links};
ghost use Rattle.site.specs.Refusal.{number_of};
ghost use Rattle.site.specs.Edits.{chained, slot, after, place as place_of, add_bytes, remove_bytes};
ghost use Rattle.site.specs.Inner.{is_link, find_refusal};

use crate::fields::Record;
use crate::rules::{NO_LINK, NO_LINKS};
use crate::{Refusal, fields, rules};
use links::Link;

// ---- begin

/// Makes every record but the last name the one after it.
pub fn chain_records(image: &mut [u8])
    requires { length image.old ≡ SIZE }
    ensures { image.new ≡ chained (RECORDS - 1) image.old }
{
    for number in 1..fields::RECORDS {
        fields::put_word(image, fields::slot_of(number), (number + 1) as u16);
    }
}

// ---- what add and remove look up

// Whether the number is that of a record which holds the link with ends u and v.
#[tactic(auto, using(crate::proofs::Sets::holds_link))]
fn holds_link(image: &[u8], u: u8, v: u8, number: usize) -> bool
    requires { length image.now ≡ SIZE }
    ensures { result ≡ is_link image.now u v number }
{
    if !rules::names_record(number) {
        return false;
    }
    let link = fields::read_record(image, number).link;
    (link.u, link.v) == (u, v)
}

// Whether an end is 0 or above the number of meters, or both are equal. `|` keeps the proof to one path.
#[tactic(auto, using(crate::proofs::Turns::ends_test))]
fn bad_ends(meters: u64, u: u64, v: u64) -> bool
    ensures { result ≡ bad_ends meters u v }
{
    (u == 0) | (meters < u) | (v == 0) | (meters < v) | (u == v)
}

/// Where a link stands or is to stand: its ends, the lower first, the record that it follows, and whether it is there.
#[derive(Clone, Copy, Debug, PartialEq, Eq)]
pub struct Found {
    pub u: u8,
    pub v: u8,
    pub place: usize,
    // No Option of the place: add needs it where the link is absent, remove where it is present.
    pub present: bool,
}

/// What add and remove share: the refusals 1 and 2, the ends in order, the link's place and whether it is there.
#[tactic(auto, using(crate::proofs::Sets::find))]
pub fn find(image: &[u8], u: u64, v: u64) -> Result<Found, Refusal>
    ensures { MatchResult result (λ found. (find_refusal image.now u v ≡ 0) × (found.u ≡ low u v) × (found.v ≡ high u v) × (found.place ≡ place_of image.now (low u v) (high u v)) × (found.present ≡ present (low u v) (high u v) (links image.now))) (λ refusal. number_of refusal ≡ find_refusal image.now u v) }
{
    // An end that is no byte is refused, and what it is taken for does not matter.
    let low = u8::try_from(u.min(v)).unwrap_or(0);
    let high = u8::try_from(u.max(v)).unwrap_or(0);
    // The walk that tests the image finds the place too, so that it is the only one. Its links are of no use here.
    let mut links = NO_LINKS;
    let place = rules::read_image(image, low, high, &mut links).ok_or(Refusal::Image)?;
    if bad_ends(image[fields::METERS_AT] as u64, u, v) {
        return Err(Refusal::Ends);
    }
    let number = fields::follower(image, place);
    Ok(Found {
        u: low,
        v: high,
        place,
        present: holds_link(image, low, high, number as usize),
    })
}

// ---- stores

// The stores that add and remove share: the first free record, the count, what the record of that number holds, and the record that follows the place.
fn relink(
    image: &mut [u8],
    free: u16,
    count: u16,
    number: usize,
    held: Record,
    place: usize,
    following: u16,
)
    requires { (length image.old ≡ SIZE) × (number ≤ RECORDS) × (place ≤ RECORDS) }
    ensures { image.new ≡ set_word (set_record (set_word (set_word image.old free_at free) count_at count) number held.link.u held.link.v held.link.weight held.next) (slot place) following }
{
    fields::put_word(image, fields::FREE_AT, free);
    fields::put_word(image, fields::COUNT_AT, count);
    fields::put_record(image, number, held);
    fields::put_word(image, fields::slot_of(place), following);
}

/// Takes the first free record for a link, and puts it after the link's place.
#[tactic(auto, using(crate::proofs::Sets::relinks), unfolding(crate::specs::Edits::add_bytes))]
pub fn insert(image: &mut [u8], place: usize, link: Link)
    requires { (length image.old ≡ SIZE) × (place ≡ place_of image.old link.u link.v) × (place ≤ RECORDS) × (first_free image.old ≤ RECORDS) × (count image.old ≤ RECORDS) }
    ensures { image.new ≡ add_bytes image.old link.u link.v link.weight }
{
    let number = fields::read_word(image, fields::FREE_AT);
    let count = fields::read_word(image, fields::COUNT_AT);
    let free = fields::read_record(image, number as usize).next;
    let held = Record {
        link,
        next: fields::follower(image, place),
        pad: 0,
    };
    relink(image, free, count + 1, number as usize, held, place, number);
}

/// Takes the record after a place out of the link chain, clears it, and makes it the first free one.
#[tactic(auto, using(crate::proofs::Sets::relinks), unfolding(crate::specs::Edits::remove_bytes))]
pub fn delete(image: &mut [u8], place: usize)
    requires { (length image.old ≡ SIZE) × (place ≤ RECORDS) × (after image.old place ≤ RECORDS) × (1 ≤ count image.old) }
    ensures { (u v : ℕ) → place ≡ place_of image.old u v → image.new ≡ remove_bytes image.old u v }
{
    let number = fields::follower(image, place);
    let count = fields::read_word(image, fields::COUNT_AT);
    let next = fields::read_record(image, number as usize).next;
    let held = Record {
        link: NO_LINK,
        next: fields::read_word(image, fields::FREE_AT),
        pad: 0,
    };
    relink(image, number, count - 1, number as usize, held, place, next);
}
