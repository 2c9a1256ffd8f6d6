// Calls that may be refused: image, kind, parameter, margin, row, lengths and bits are each drawn right or wrong. Every
// call has to give the refusal that comes first, and to alter nothing where it is refused.
use crate::calls::Ask;
use crate::cases::Case;
use crate::draws::Draws;
use crate::edits::{IMAGE_LEN, Twins};
use crate::slices::{LIST_LEN, List, front, front_mut};
use crate::{Run, assignments};
use reference::{ROOM, Site};

/// How many times all calls are made of each site.
const ASKS: usize = 300;

/// Kinds and parameters, right and wrong: 257 is 1 to whoever keeps one byte of it, 2^32 + 1 to whoever keeps four.
const KINDS: [u64; 16] = [
    1,
    2,
    3,
    1,
    2,
    3,
    1,
    2,
    3,
    2,
    3,
    0,
    4,
    257,
    4294967297,
    u64::MAX,
];

const PARAMETERS: [u64; 16] = [
    1,
    2,
    3,
    4,
    5,
    2,
    3,
    4,
    2,
    3,
    2,
    0,
    48,
    257,
    4294967298,
    u64::MAX,
];

/// Margins, of which the first 12 are accepted: 2^32 is 0 to whoever keeps four bytes of it.
const MARGINS: [u64; 16] = [
    0,
    1,
    0,
    2,
    0,
    5,
    0,
    1000,
    0,
    65535,
    999999,
    1000000,
    1000001,
    4294967296,
    1000001,
    u64::MAX,
];

/// Bytes of an image that are never 255: the number of meters, the link count's upper byte, and zero bytes of the header, of the first record and of the last.
const BROKEN: [usize; 8] = [0, 1, 7, 8, 15, 22, 23, 2063];

/// Lists as numbers to the base 8: all 1; 1 and 2 by turns; a star with root 1; a path with root 2.
const LISTS: [usize; 4] = [4681, 5201, 4680, 18050];

/// What is done to the image.
#[derive(Debug, Clone, Copy, PartialEq, Eq)]
enum Damage {
    /// A byte breaks a rule.
    Byte(usize),
    /// The last byte is left out.
    Cut,
}

/// One of the margins.
// Two functions of a line, and no parameter: 16 and 12 are how many there are and how many are accepted.
pub fn draw_margin(draws: &mut Draws) -> u64 {
    MARGINS[draws.below(16)]
}

/// One of the margins that are accepted.
pub fn draw_accepted_margin(draws: &mut Draws) -> u64 {
    MARGINS[draws.below(12)]
}

/// What is asked for.
fn draw_ask(draws: &mut Draws) -> Ask {
    let kind = KINDS[draws.below(16)];
    let parameter = PARAMETERS[draws.below(16)];
    let margin = draw_margin(draws);
    Ask {
        kind,
        parameter,
        margin,
    }
}

/// What is done to the image: nothing in 23 of 32 draws.
fn draw_damage(draws: &mut Draws) -> Option<Damage> {
    match draws.below(32) {
        8 => Some(Damage::Cut),
        way => BROKEN.get(way).map(|at| Damage::Byte(*at)),
    }
}

/// A row: the bit count, one above it, the greatest number, or one that there is.
fn draw_row(draws: &mut Draws, bits: usize) -> u64 {
    let way = draws.below(8);
    let row = draws.below(bits) as u64;
    let bits = bits as u64;
    match way {
        0 => bits,
        1 => bits.wrapping_add(1),
        2 => u64::MAX,
        _ => row,
    }
}

/// A length: one too short, one too long, or right.
fn draw_length(draws: &mut Draws, right: usize) -> usize {
    match draws.below(6) {
        0 => right.saturating_sub(1),
        1 => right.wrapping_add(1),
        _ => right,
    }
}

/// One of the lists.
fn draw_list(draws: &mut Draws, meters: usize) -> List {
    let mut list = [0; LIST_LEN];
    reference::list_number(LISTS[draws.below(4)], 8, front_mut(&mut list, meters));
    list
}

/// In two of 8 draws a value that no bit has, else 1.
fn draw_value(draws: &mut Draws) -> u8 {
    match draws.below(8) {
        0 => 2,
        1 => 255,
        _ => 1,
    }
}

impl Case<'_> {
    /// A row.
    fn ask_row(&self, run: &mut Run) {
        let row = draw_row(&mut run.draws, self.bits);
        // No numbers are right where there is no such row.
        let right = self.row_length(row).unwrap_or(0);
        let lent = draw_length(&mut run.draws, right);
        self.compare_row(row, lent, &mut run.counts);
    }

    /// Bits, one of which has the value drawn.
    fn ask_bits(&self, run: &mut Run) {
        let mut bits = assignments::draw_bits(self.bits, &mut run.draws);
        let at = run.draws.below(self.bits);
        let value = draw_value(&mut run.draws);
        if at < bits.len() {
            bits[at] = value;
        }
        let asked = Case {
            flawed: value != 1,
            ..*self
        };
        asked.compare_assignment(&bits, &mut run.counts);
    }

    /// A list, and bits.
    fn ask_plan(&self, run: &mut Run) {
        let lent_bits = draw_length(&mut run.draws, self.bits);
        let lent_plan = draw_length(&mut run.draws, self.site.meters());
        let asked = Case {
            lent_bits,
            lent_plan,
            ..*self
        };
        let list = draw_list(&mut run.draws, self.site.meters());
        asked.compare_list(&list, &mut run.counts);
        asked.ask_bits(run);
    }
}

/// Draws one ask and makes all calls, with the image as it is, with a byte that breaks a rule, or without its last byte.
fn ask_once(image: &[u8; IMAGE_LEN], site: &Site, run: &mut Run) {
    let mut copy = *image;
    let mut length = IMAGE_LEN;
    let damage = draw_damage(&mut run.draws);
    match damage {
        Some(Damage::Byte(at)) => copy[at % IMAGE_LEN] = 255,
        Some(Damage::Cut) => length = IMAGE_LEN - 1,
        None => (),
    }
    let ask = draw_ask(&mut run.draws);
    let whole = Case::new(front(&copy, length), site, ask, ROOM);
    let case = match damage {
        Some(_) => whole.damaged(),
        None => whole,
    };
    case.compare_table(&mut run.counts);
    case.ask_row(run);
    case.ask_plan(run);
}

/// All asks of a site.
pub fn compare_asks(twins: &Twins, run: &mut Run) {
    let site = twins.site();
    for _ in 0..ASKS {
        ask_once(&twins.image, &site, run);
    }
}
