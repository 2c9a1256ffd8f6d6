// Lists of links, whatever survey they are of.
ghost use Rattle.std.specs.Prelude.{◌++◌, ◌≤◌, ◌≡◌, true, length, ltb, leb};
ghost use Rattle.std.specs.List.Sorted.{IsNonDecreasingBy};
ghost use Rattle.lists.specs.Tests.{all};
ghost use Rattle.links.specs.Links.{total};

use crate::Link;

/// The sum of all weights, whatever the ends are.
pub fn total_weight(links: &[Link]) -> u64
    requires { length links.now ≤ 256 }
    ensures value { result ≡ total links.now }
    ensures bound { result ≤ 16776960 }
{
    let mut sum = 0;
    for link in links {
        sum += link.weight as u64;
    }
    sum
}

/// The links whose lower end is below m, and the others: the links rise by it, so halving finds where they part.
pub fn split_at_meter(links: &[Link], m: usize) -> (&[Link], &[Link])
    requires { IsNonDecreasingBy (λ l. l.u) links.now }
    ensures whole { result.0.now ++ result.1.now ≡ links.now }
    ensures below { all (λ l. ltb l.u m) result.0.now ≡ true }
    ensures above { all (λ l. leb m l.u) result.1.now ≡ true }
{
    let first = links.partition_point(|link| (link.u as usize) < m);
    links.split_at(first)
}
