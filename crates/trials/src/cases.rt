// The cases of a site. One with few bits is compared at every assignment, a larger one at the codes of all plans, these
// with one bit flipped, and random assignments.
use crate::assignments::Least;
use crate::calls::{Ask, Refusal};
use crate::counts::{Counts, Subject};
use crate::edits::Twins;
use crate::slices::front;
use crate::{Run, asks};
use reference::{Kind, Site};

/// What is asked for one site, and what is lent to the calls.
#[derive(Clone, Copy)]
pub struct Case<'a> {
    pub image: &'a [u8],
    pub site: &'a Site,
    pub ask: Ask,
    /// the kind, where it is none that is refused
    pub kind: Option<Kind>,
    /// the bit count and the penalty, as the reference says
    // 0 and no Option where the kind is refused: such an ask is compared as well, and its draws go by the bit count; its penalty is not looked at.
    pub bits: usize,
    pub penalty: u64,
    /// whether image and ask are accepted, or why not
    pub accepted: Result<(), Refusal>,
    /// how many bits and how many bytes of a plan are lent
    pub lent_bits: usize,
    pub lent_plan: usize,
    /// whether a bit has a value that no bit has
    pub flawed: bool,
    /// whether every assignment is compared
    pub small: bool,
}

impl<'a> Case<'a> {
    /// The case of what is asked for, of an image that is accepted, with what it needs lent; small where it has at most so many bits.
    pub fn new(image: &'a [u8], site: &'a Site, ask: Ask, most: usize) -> Case<'a> {
        let kind = Kind::new(ask.kind, ask.parameter, site.meters());
        let bits = bits_of(site, ask, kind);
        Case {
            image,
            site,
            ask,
            kind,
            bits,
            penalty: kind.map_or(0, |kind| site.penalty(kind, ask.margin)),
            accepted: accepted(kind, ask.margin),
            lent_bits: bits,
            lent_plan: site.meters(),
            flawed: false,
            small: bits <= most,
        }
    }

    /// The same with an image that is refused, which comes before all other refusals.
    pub fn damaged(self) -> Case<'a> {
        Case {
            accepted: Err(Refusal::Image),
            ..self
        }
    }

    /// The energy of an assignment, of as many bits as there are; 0 where the kind is refused.
    pub fn energy_of(&self, bits: &[u8]) -> u64 {
        let bits = front(bits, self.bits);
        // 0 and no Option: an ask that is refused is compared as well, and its energy is not looked at.
        match self.kind {
            Some(kind) => self.site.energy(kind, self.ask.margin, bits),
            None => 0,
        }
    }

    /// The bytes of a list that are those of the plan.
    pub fn plan_in<'b>(&self, list: &'b [u8]) -> &'b [u8] {
        front(list, self.site.meters())
    }

    /// What energies, codes and decoding answer: refused are image and ask, a length, and what is refused later.
    pub fn answer(&self, lent_plan: usize, later: Result<(), Refusal>) -> Result<(), Refusal> {
        self.accepted?;
        if self.lent_bits != self.bits || lent_plan != self.site.meters() {
            return Err(Refusal::Length);
        }
        later
    }

    /// Whether no bit has a value that no bit has.
    pub fn unflawed(&self) -> Result<(), Refusal> {
        if self.flawed {
            Err(Refusal::NotBits)
        } else {
            Ok(())
        }
    }

    /// Whether more than bit count, penalty and constant is compared: of small cases and, of three meters or more, of
    /// those with a parameter up to 4, of groups up to 5.
    fn is_chosen(&self) -> bool {
        if self.accepted.is_err() {
            return false;
        }
        if self.small {
            return true;
        }
        let few = match self.kind {
            Some(Kind::Groups(m)) => m <= 5,
            Some(Kind::Channels(size) | Kind::Tree(size)) => size <= 4,
            None => false,
        };
        few && self.site.meters() >= 3
    }

    /// Whether the least energies are those of the best plans. `all` is of every assignment, `plans` of the codes of all plans.
    fn least_agrees(&self, all: Least, plans: Least) -> bool {
        if plans.count == 0 {
            return all.energy.is_none_or(|energy| self.penalty <= energy);
        }
        let channels = matches!(self.kind, Some(Kind::Channels(_)));
        all.energy == plans.energy
            && all.count == plans.count
            && (channels || all.below == plans.below)
    }

    /// Whether the least energy of the codes of trees is the weight of the best spanning tree, and there is a code just where there is such a tree.
    fn tree_agrees(&self, plans: Least) -> bool {
        match self.kind {
            Some(Kind::Tree(d)) => self.site.best_tree(d) == plans.energy,
            _ => true,
        }
    }

    /// All that there is to compare.
    pub fn compare(&self, run: &mut Run) {
        self.compare_rows(&mut run.counts);
        let plans = self.compare_lists(&mut run.counts);
        run.counts.compared(Subject::Least, self.tree_agrees(plans));
        if self.small {
            let all = self.compare_all(&mut run.counts);
            run.counts
                .compared(Subject::Least, self.least_agrees(all, plans));
        } else {
            self.compare_some(run);
        }
    }
}

/// How many bits there are. A kind that is refused has no bit count: the draws for it go by the bits that a tree has
/// without those that count neighbours, or by none.
fn bits_of(site: &Site, ask: Ask, kind: Option<Kind>) -> usize {
    match kind {
        Some(kind) => site.bit_count(kind),
        // 0 and no Option: a refused ask is drawn for as well, and its draws go by these numbers.
        None if ask.kind == 3 => site.bit_count(Kind::Tree(0)),
        None => 0,
    }
}

/// Whether an ask is accepted: "18 margin too large, after 7". No small site has more than 8,192 bits, so 8 never applies; large.rt has those that have.
fn accepted(kind: Option<Kind>, margin: u64) -> Result<(), Refusal> {
    if kind.is_none() {
        return Err(Refusal::Kind);
    }
    if !reference::allows_margin(margin) {
        return Err(Refusal::Margin);
    }
    Ok(())
}

/// All cases of a site: kinds 0 to 3, parameters 0 to 63, of which the refused ones have a refusal alone, each with a drawn margin that is accepted.
pub fn compare_cases(twins: &Twins, most: usize, run: &mut Run) {
    let site = twins.site();
    for kind in 0..4 {
        for parameter in 0..64 {
            let margin = asks::draw_accepted_margin(&mut run.draws);
            let ask = Ask {
                kind,
                parameter,
                margin,
            };
            let case = Case::new(&twins.image, &site, ask, most);
            case.compare_table(&mut run.counts);
            if case.is_chosen() {
                case.compare(run);
            }
        }
    }
}
