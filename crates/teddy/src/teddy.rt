ghost use Rattle.std.specs.Prelude.{◌≡◌};
ghost use Rattle.teddy.specs.Buckets.{groups_of};
ghost use Rattle.teddy.specs.Teddy.{nearest, BelongTo};
ghost use Rattle.teddy.specs.Windows.{MasksOf};

use crate::bucket::assign;
use crate::candidate::Masks;
use crate::mask::Mask;
use crate::mask_table::MaskTable;
use finder::Finder;
use pattern::{Book, MAX_MASKS};
use rabinkarp::{Buckets, RabinKarp};
use std::rc::Rc;
use vector::Vector;

/// The buckets and the masks of a book, beside the rolling hash, which holds the book and searches what is too short for a window.
#[derive(Drop)]
pub struct Teddy {
    pub(crate) rabinkarp: RabinKarp,
    pub(crate) buckets: Buckets,
    pub(crate) masks: Masks<MaskTable>,
    ghost sound: { BelongTo (groups_of (⟦<RabinKarp as Finder>⟧.book rabinkarp)) buckets masks },
}

/// The permitted mask count that is nearest to `masks`.
fn clamped(book: &Book, masks: usize) -> usize
    ensures { result ≡ nearest masks book.now }
{
    masks.clamp(1, MAX_MASKS).min(book.minimum_len())
}

impl Teddy {
    /// The buckets and the masks of a book, for the mask count that is nearest to `masks`.
    pub(crate) fn new(book: Rc<Book>, masks: usize) -> Teddy
        ensures book { ⟦<RabinKarp as Finder>⟧.book result.rabinkarp ≡ book.value }
        ensures count { result.masks.count ≡ nearest masks book.value }
    {
        let rabinkarp = RabinKarp::new(book);
        let closed = rabinkarp.book();
        let assigned = assign(closed);
        let buckets = Buckets::new(closed, &assigned);
        let masks = Masks {
            count: clamped(closed, masks),
            first: MaskTable::new(closed, &assigned, 0),
            second: MaskTable::new(closed, &assigned, 1),
            third: MaskTable::new(closed, &assigned, 2),
            fourth: MaskTable::new(closed, &assigned, 3),
        };
        Teddy {
            rabinkarp,
            buckets,
            masks,
        }
    }

    /// The masks as vectors.
    pub(crate) fn masks<V: Vector>(&self) -> Masks<Mask<V>>
        ensures count { result.count ≡ self.now.masks.count }
        ensures masks { MasksOf V.count V.lanes result (groups_of (⟦<RabinKarp as Finder>⟧.book self.now.rabinkarp)) }
    {
        Masks {
            count: self.masks.count,
            first: Mask::load(&self.masks.first),
            second: Mask::load(&self.masks.second),
            third: Mask::load(&self.masks.third),
            fourth: Mask::load(&self.masks.fourth),
        }
    }
}
