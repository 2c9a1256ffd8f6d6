// Edits of a site, of the image and of the matrix of matrix.rt, and the comparison of the two after each.
use crate::calls::{self, Refusal};
use crate::counts::{Counts, Subject};
use crate::matrix::Matrix;
use crate::slices::front;
use reference::Site;

/// How many bytes an image has.
pub const IMAGE_LEN: usize = 2064;

/// One edit: a begin, or it takes the link of u and v out, or puts it in.
#[derive(Debug, Clone, Copy, PartialEq, Eq)]
pub enum Edit {
    Begin { meters: usize },
    Remove { u: usize, v: usize },
    Add { u: usize, v: usize, weight: u16 },
}

/// A site twice: the library's image and the matrix.
#[derive(Drop)]
pub struct Twins {
    pub image: [u8; IMAGE_LEN],
    pub matrix: Matrix,
}

impl Twins {
    /// Begins a site.
    pub fn begin(meters: usize, counts: &mut Counts) -> Twins {
        let mut image = [0; IMAGE_LEN];
        let begun = calls::begin(&mut image, meters);
        counts.called(Subject::Sites, Ok(()), begun == Ok(()));
        Twins {
            image,
            matrix: Matrix::new(meters),
        }
    }

    /// The small site, for the reference.
    pub fn site(&self) -> Site {
        self.matrix.site()
    }

    /// Whether the library's edit answers as expected, and alters nothing where it is refused.
    fn edit_agrees(&mut self, edit: Edit, expected: Result<(), Refusal>) -> bool {
        let old = self.image;
        calls::edit(&mut self.image, edit) == expected && (expected.is_ok() || self.image == old)
    }

    /// Whether the image is accepted, and is read as the matrix has it.
    fn site_agrees(&self) -> bool {
        if calls::check(&self.image) != Ok(()) {
            return false;
        }
        match calls::read(&self.image) {
            Ok(read) => {
                read.meters == self.matrix.meters()
                    && read.count <= read.links.len()
                    && self.matrix.has_links(front(&read.links, read.count))
            }
            Err(_) => false,
        }
    }

    /// One edit, of both.
    pub fn edit(&mut self, edit: Edit, counts: &mut Counts) {
        let expected = self.matrix.edit(edit);
        let agrees = self.edit_agrees(edit, expected) && self.site_agrees();
        counts.called(Subject::Edits, expected, agrees);
    }
}
