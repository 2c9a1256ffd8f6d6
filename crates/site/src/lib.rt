// The site image: 2,064 bytes that the caller lends, with N and the links of a site. These are the public calls; none
// asks anything of its caller. A refused call gives the first refusal that applies, and alters nothing.
#![tactic(auto)]

mod edits;
mod fields;
mod refusals;
mod rules;

ghost use Rattle.std.specs.Prelude.{◌≡◌, length, IfOk};
ghost use Rattle.site.specs.Refusal.{number_told};
ghost use Rattle.site.specs.Edits.{check_refusal, begin_refusal, begin_image, add_refusal, add_image, remove_refusal, remove_image};
ghost use Rattle.site.specs.Reading.{read_meters, read_links, over};

use links::Link;
pub use refusals::Refusal;
pub use rules::{NO_LINK, NO_LINKS};

/// Tells whether the bytes are a site image.
#[tactic(auto, using(crate::proofs::Refused::check_number))]
pub fn check(image: &[u8]) -> Result<(), Refusal>
    ensures value { number_told result ≡ check_refusal image.now }
    ensures image_value { image.exit.now ≡ image.entry.now }
{
    if rules::is_image(image) {
        Ok(())
    } else {
        Err(Refusal::Image)
    }
}

/// Makes the image a new one of that many meters: all records free, in order, and no links.
#[tactic(auto, using(crate::proofs::Sets::begin))]
pub fn begin(image: &mut [u8], meters: u64) -> Result<(), Refusal>
    ensures value { number_told result ≡ begin_refusal image.old meters }
    ensures image_after { image.new ≡ begin_image image.old meters }
{
    if image.len() != fields::IMAGE_LEN {
        return Err(Refusal::Image);
    }
    if meters < 1 || (fields::METERS as u64) < meters {
        return Err(Refusal::Kind);
    }
    image.fill(0);
    image[fields::METERS_AT] = meters as u8;
    fields::put_word(image, fields::FREE_AT, 1);
    edits::chain_records(image);
    Ok(())
}

/// Adds the link between u and v, either way round.
#[tactic(auto, using(crate::proofs::Sets::add))]
pub fn add(image: &mut [u8], u: u64, v: u64, weight: u16) -> Result<(), Refusal>
    ensures value { number_told result ≡ add_refusal image.old u v weight }
    ensures image_after { image.new ≡ add_image image.old u v weight }
{
    let found = edits::find(image, u, v)?;
    if weight == 0 {
        return Err(Refusal::Weight);
    }
    if found.present {
        return Err(Refusal::Present);
    }
    if fields::read_word(image, fields::FREE_AT) == 0 {
        return Err(Refusal::Full);
    }
    let link = Link {
        u: found.u,
        v: found.v,
        weight,
    };
    edits::insert(image, found.place, link);
    Ok(())
}

/// Removes the link between u and v, either way round.
#[tactic(auto, using(crate::proofs::Sets::remove))]
pub fn remove(image: &mut [u8], u: u64, v: u64) -> Result<(), Refusal>
    ensures value { number_told result ≡ remove_refusal image.old u v }
    ensures image_after { image.new ≡ remove_image image.old u v }
{
    let found = edits::find(image, u, v)?;
    if !found.present {
        return Err(Refusal::Absent);
    }
    edits::delete(image, found.place);
    Ok(())
}

/// What is read out of an image beside the links: the number of meters, and how many links there are.
// A count and no slice: what a lent slice holds beside a part that is returned is told only by a clause that is proved
// by hand, as that of `plans::row`, and the one caller cuts the slice in a line.
#[derive(Clone, Copy, Debug, PartialEq, Eq)]
pub struct Reading {
    pub meters: usize,
    pub count: usize,
}

/// Reads N and the links, for the kinds: the links stand in the first places of the lent array. The rest of it, and all of it on refusal, stays as it was.
#[tactic(auto, using(crate::proofs::Sets::read))]
pub fn read(image: &[u8], links: &mut [Link; 256]) -> Result<Reading, Refusal>
    ensures refusal_value { number_told result ≡ check_refusal image.now }
    ensures reading { IfOk result (λ reading. (reading.meters ≡ read_meters image.now) × (reading.count ≡ length (read_links image.now))) }
    ensures links_after { links.new ≡ over (read_links image.now) links.old }
    ensures image_value { image.exit.now ≡ image.entry.now }
{
    let mut front = NO_LINKS;
    // No place is asked for: (0, 0) and no Option, as in `is_image`. The walk may fail after it has stored, so that its array is not the lent one.
    rules::read_image(image, 0, 0, &mut front).ok_or(Refusal::Image)?;
    let meters = image[fields::METERS_AT] as usize;
    let count = fields::read_word(image, fields::COUNT_AT) as usize;
    links[..count].copy_from_slice(&front[..count]);
    Ok(Reading { meters, count })
}
