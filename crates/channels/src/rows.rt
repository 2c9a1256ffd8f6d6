// What the clashes add to a row of the table.
ghost use Rattle.std.specs.Prelude.{◌+◌, ◌*◌, ◌<◌, ◌^◌, ◌≡◌, length};
ghost use Rattle.qubo.specs.Rows.{add_terms, Room};
ghost use Rattle.channels.specs.Formula.{clash_terms};

use crate::Channels;

impl Channels<'_> {
    /// Adds the clashes of the links to row i. In the row of a bit of meter m stand the pairs of the links from m to a higher meter, each at the same channel.
    pub(crate) fn add_clashes(&self, row: &mut [i64], i: usize)
        requires by_index { (i + length row.old ≡ self.now.survey.meters * self.now.n) × (i < self.now.survey.meters * self.now.n) }
        requires room { Room (2 ^ 61) (clash_terms self.now.n self.now.survey.links.now) row.old }
        ensures { row.new ≡ add_terms (clash_terms self.now.n self.now.survey.links.now) i row.old }
    {
        let m = i / self.n + 1;
        let (_, from_m) = links::split_at_meter(self.survey.links, m);
        for link in from_m.iter().take_while(|link| link.u as usize == m) {
            let up = (link.v as usize) - m;
            qubo::add_pair(row, i, i, i + up * self.n, link.weight as i64);
        }
    }
}
