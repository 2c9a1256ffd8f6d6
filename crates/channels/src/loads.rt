// The sum of link weights at each meter, in one walk of the links.
ghost use Rattle.std.specs.Prelude.{ℕ, ◌<◌, ◌≡◌, length, get_or};
ghost use Rattle.lists.specs.Sums.{greatest};
ghost use Rattle.channels.specs.Formula.{load};

use links::Survey;

/// The sum of link weights at each meter m, in place m of 256, since a meter's number is a byte.
pub fn loads_of(survey: &Survey) -> [u64; 256]
    ensures { (length result ≡ 256) × ((m : ℕ) → get_or result m 0 ≡ load survey.now.links.now m) }
{
    let mut sums = [0; 256];
    for link in survey.links {
        sums[link.u as usize] += link.weight as u64;
        sums[link.v as usize] += link.weight as u64;
    }
    sums
}

/// The greatest of the sums of the meters.
pub fn greatest_load(sums: &[u64], meters: usize) -> u64
    requires { meters < length sums.now }
    ensures { result ≡ greatest meters (λ m. get_or sums.now m 0) }
{
    sums[1..=meters].iter().copied().max().unwrap_or(0)
}
