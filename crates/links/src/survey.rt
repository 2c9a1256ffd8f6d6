// The survey of an accepted site.
ghost use Rattle.std.specs.Prelude.{◌≡◌, ◌≤◌, true, length};
ghost use Rattle.lists.specs.Tests.{all};
ghost use Rattle.links.specs.Links.{link_ok, ascending};

use crate::Link;

/// The number of meters of an accepted site and its links: every link is as it should be, and they rise strictly.
#[derive(Clone, Copy)]
pub struct Survey<'a> {
    pub meters: usize,
    pub links: &'a [Link],
    pub ghost meters_low: { 1 ≤ meters },
    pub ghost meters_high: { meters ≤ 48 },
    pub ghost few: { length links.now ≤ 256 },
    pub ghost each: { all (link_ok meters) links.now ≡ true },
    pub ghost rises: { ascending links.now ≡ true },
}
