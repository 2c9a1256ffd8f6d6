// Which kind is asked for, and its limits.
ghost use Rattle.std.specs.Prelude.{◌≡◌, true, false, MatchOption};
ghost use Rattle.plans.specs.Kinds.{kind_of, limits_hold};
ghost use Rattle.plans.specs.Refusals.{bad_kind};

use crate::{Ask, Kind};
use channels::Channels;
use groups::Groups;
use tree::Tree;

// Whether the kind's limits hold.
// The limits are of any 64 bits, as they are lent, and a kind's struct counts in usize: where they meet it is a cast.
fn allows(kind: Kind, meters: usize) -> bool
    ensures { result ≡ limits_hold meters kind }
{
    match kind {
        Kind::Channels(n) => Channels::allows(n as u64),
        Kind::Groups(m) => Groups::allows(m as u64),
        Kind::Tree(d) => Tree::allows(meters as u64, d as u64),
    }
}

/// The kind that is asked for, where there is such a kind and its limits hold.
// No TryFrom: the number of meters decides too.
pub(crate) fn kind_of(ask: Ask, meters: usize) -> Option<Kind>
    ensures { MatchOption result (bad_kind meters ask ≡ true) (λ k. (bad_kind meters ask ≡ false) × (k ≡ kind_of ask)) }
{
    let parameter = ask.parameter as usize;
    let kind = match ask.kind {
        1 => Kind::Channels(parameter),
        2 => Kind::Groups(parameter),
        3 => Kind::Tree(parameter),
        _ => return None,
    };
    allows(kind, meters).then_some(kind)
}
