// Calls that alter an image, each with the number of its refusal, 0 for none, and how many bytes it altered.
ghost use Rattle.std.specs.Prelude.{◌<◌, ◌≤◌};

use crate::answers::{differing, number};
use crate::session::LONGEST;
use crate::words::{self, Numbers};
use plans::Refusal;
use std::io;
use std::io::Write;

// The bytes of an image; zeros behind them.
fn copy_of(image: &[u8]) -> [u8; LONGEST] {
    let mut copy = [0; LONGEST];
    let len = image.len().min(LONGEST);
    copy[..len].copy_from_slice(&image[..len]);
    copy
}

/// An edit of the image.
#[derive(Debug, Clone, Copy, PartialEq, Eq)]
pub enum Edit {
    /// So many meters.
    Begin(u64),
    /// Two ends and a weight.
    Add(u64, u64, u16),
    /// Two ends.
    Remove(u64, u64),
}

impl Edit {
    fn make(self, image: &mut [u8]) -> Result<(), Refusal> {
        match self {
            Edit::Begin(meters) => plans::begin(image, meters),
            Edit::Add(u, v, weight) => plans::add(image, u, v, weight),
            Edit::Remove(u, v) => plans::remove(image, u, v),
        }
    }

    /// Makes the edit; the number of its refusal, 0 for none, and how many bytes were altered.
    // Not inlined, and so none that needs room for a copy: every line would pay for it.
    #[inline(never)]
    pub fn show(self, out: &mut impl Write, image: &mut [u8]) -> io::Result<()> {
        let old = copy_of(image);
        let refusal = number(self.make(image));
        write!(out, ": {refusal}, altered {}", differing(&old, image))
    }
}

/// `circle N STEP W COUNT`: links from so many of N meters round a circle, each to the one so many steps on.
#[derive(Clone, Copy)]
pub struct Circle {
    meters: u64,
    step: u64,
    weight: u16,
    count: u64,
    ghost some_meter: { 1 ≤ meters },
    ghost few_meters: { meters ≤ 48 },
    ghost within_circle: { step < 48 },
}

impl From<Numbers> for Circle {
    fn from([meters, step, weight, count, ..]: Numbers) -> Circle {
        Circle {
            meters: meters.clamp(1, 48),
            step: step % 48,
            weight: words::weight(weight),
            count: count.min(48),
        }
    }
}

impl Circle {
    // Adds the link from meter k + 1 round the circle. Gives whether it is accepted.
    fn add_link(self, image: &mut [u8], k: u64) -> bool {
        let from = k % self.meters;
        let on = (from + self.step) % self.meters;
        plans::add(image, from + 1, on + 1, self.weight).is_ok()
    }

    /// Adds the links; how many are accepted.
    pub fn show(self, out: &mut impl Write, image: &mut [u8]) -> io::Result<()> {
        let mut accepted = 0u64;
        for k in 0..self.count {
            if self.add_link(image, k) {
                accepted += 1;
            }
        }
        write!(out, ": accepted {accepted}")
    }
}

/// `AT BYTE`: one byte, and where it is set.
#[derive(Clone, Copy)]
pub struct Byte {
    at: usize,
    value: u8,
}

impl From<Numbers> for Byte {
    fn from([at, value, ..]: Numbers) -> Byte {
        Byte {
            at: at as usize,
            value: (value % 256) as u8,
        }
    }
}

impl Byte {
    /// Sets the byte, where the image has that place.
    pub fn set(self, image: &mut [u8]) {
        if let Some(place) = image.get_mut(self.at) {
            *place = self.value;
        }
    }

    /// `try AT BYTE`: of calls with a copy of the image that has the byte, the numbers of the refusals, 0 for none, and how many bytes they altered together.
    #[inline(never)]
    pub fn show_calls(self, out: &mut impl Write, image: &[u8]) -> io::Result<()> {
        let mut copy = copy_of(image);
        let lent = image.len().min(LONGEST);
        let image = &mut copy[..lent];
        self.set(image);
        let old = copy_of(image);
        write_calls(out, image)?;
        write!(out, ", altered {}", differing(&old, image))
    }
}

fn write_calls(out: &mut impl Write, image: &mut [u8]) -> io::Result<()> {
    let check = number(site::check(image));
    let added = number(plans::add(image, 3, 4, 9));
    let removed = number(plans::remove(image, 1, 2));
    let mut links = site::NO_LINKS;
    let read = number(site::read(image, &mut links));
    write!(
        out,
        ": check {check}, add {added}, remove {removed}, read {read}"
    )
}
