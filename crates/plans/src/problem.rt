// The problem of whichever kind: one `match` each, whose arms call that kind's own crate.
// One match each and no dyn: all kinds are known here, and the gate refuses a function that makes a dyn value and hands it out.
use crate::Kind;
use channels::Channels;
use groups::Groups;
use links::Survey;
use qubo::{Decoded, Problem};
use tree::Tree;

/// What an accepted image and what is asked of it pose.
#[derive(Clone, Copy)]
pub enum Posed<'a> {
    /// Channels: n is in the struct.
    Channels(Channels<'a>),
    /// Groups: m is in the struct.
    Groups(Groups<'a>),
    /// A tree: d is in the struct.
    Tree(Tree<'a>),
}

impl<'a> Posed<'a> {
    ghost use Rattle.std.specs.Prelude.{◌≡◌, true, ◌+◌, ◌≤◌};
    ghost use Rattle.plans.specs.Kinds.{limits_hold, penalty_of, instance_by};
    ghost use Rattle.plans.specs.Refusals.{most_margin};
    ghost use Rattle.plans.specs.Inner.{instance_for, surveyed};

    /// The problem of a kind over a survey: A is that of the kind, and a margin.
    pub(crate) fn new(kind: Kind, survey: Survey<'a>, margin: u64) -> Posed<'a>
        requires { (limits_hold survey.meters kind ≡ true) × (margin ≤ most_margin) }
        ensures { instance_for result ≡ instance_by (penalty_of (surveyed survey.entry) kind + margin) (surveyed survey.entry) kind }
    {
        match kind {
            Kind::Channels(n) => {
                let penalty = Channels::own_penalty(&survey) + margin;
                Posed::Channels(Channels { survey, n, penalty })
            }
            Kind::Groups(m) => {
                let penalty = Groups::own_penalty(survey.links) + margin;
                Posed::Groups(Groups { survey, m, penalty })
            }
            Kind::Tree(d) => {
                let penalty = Tree::own_penalty(survey.links) + margin;
                Posed::Tree(Tree { survey, d, penalty })
            }
        }
    }

    /// How many bytes a plan has: one for each meter.
    pub fn plan_bytes(&self) -> usize
        ensures { result ≡ (instance_for self.now).plan_bytes }
    {
        match self {
            Posed::Channels(channels) => channels.survey.meters,
            Posed::Groups(groups) => groups.survey.meters,
            Posed::Tree(tree) => tree.survey.meters,
        }
    }

    /// The penalty A, the margin included.
    pub fn penalty(&self) -> u64
        ensures { result ≡ (instance_for self.now).penalty }
    {
        match self {
            Posed::Channels(channels) => channels.penalty,
            Posed::Groups(groups) => groups.penalty,
            Posed::Tree(tree) => tree.penalty,
        }
    }
}

impl Problem for Posed<'_> {
    ghost use Rattle.plans.specs.Inner.{instance_for};

    ghost instance = { λ p. instance_for p };

    fn bits(&self) -> usize {
        match self {
            Posed::Channels(channels) => channels.bits(),
            Posed::Groups(groups) => groups.bits(),
            Posed::Tree(tree) => tree.bits(),
        }
    }

    fn constant(&self) -> i64 {
        match self {
            Posed::Channels(channels) => channels.constant(),
            Posed::Groups(groups) => groups.constant(),
            Posed::Tree(tree) => tree.constant(),
        }
    }

    fn row_into(&self, i: usize, row: &mut [i64]) {
        match self {
            Posed::Channels(channels) => channels.row_into(i, row),
            Posed::Groups(groups) => groups.row_into(i, row),
            Posed::Tree(tree) => tree.row_into(i, row),
        }
    }

    fn energy(&self, bits: &[u8]) -> i64 {
        match self {
            Posed::Channels(channels) => channels.energy(bits),
            Posed::Groups(groups) => groups.energy(bits),
            Posed::Tree(tree) => tree.energy(bits),
        }
    }

    fn encode(&self, plan: &[u8], bits: &mut [u8]) -> bool {
        match self {
            Posed::Channels(channels) => channels.encode(plan, bits),
            Posed::Groups(groups) => groups.encode(plan, bits),
            Posed::Tree(tree) => tree.encode(plan, bits),
        }
    }

    fn decode(&self, bits: &[u8], plan: &mut [u8]) -> Option<Decoded> {
        match self {
            Posed::Channels(channels) => channels.decode(bits, plan),
            Posed::Groups(groups) => groups.decode(bits, plan),
            Posed::Tree(tree) => tree.decode(bits, plan),
        }
    }
}
