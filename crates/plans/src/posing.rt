// The prologue of every call about a table: the image is read, and the problem that it and the ask pose is given, or the first refusal by 1, 7, 18 or 8.
ghost use Rattle.std.specs.Prelude.{◌≡◌, MatchResult};
ghost use Rattle.site.specs.Refusal.{number_of};
ghost use Rattle.plans.specs.Calls.{instance_in, accept_number_in};
ghost use Rattle.plans.specs.Inner.{instance_for};

use crate::problem::Posed;
use crate::{Ask, Refusal, refusals};
use links::{Link, Survey};
use qubo::Problem;

/// The problem that an image and what is asked pose, its links in the front places of the lent array.
// The array is lent, as there is no heap: what is posed holds the links as a slice of the caller's places.
pub(crate) fn pose<'a>(
    image: &[u8],
    ask: Ask,
    links: &'a mut [Link; 256],
) -> Result<Posed<'a>, Refusal>
    ensures { MatchResult result (λ p. (accept_number_in image.now ask ≡ 0) × (instance_for p ≡ instance_in image.now ask)) (λ r. number_of r ≡ accept_number_in image.now ask) }
{
    let reading = site::read(image, links)?;
    let kind = refusals::of_ask(ask, reading.meters)?;
    let survey = Survey {
        meters: reading.meters,
        links: &links[..reading.count],
    };
    let posed = Posed::new(kind, survey, ask.margin);
    refusals::of_count(posed.bits())?;
    Ok(posed)
}
