// Cells, and blocks of them. The sets of boxes that have the intervals are lent, and left unchanged.
ghost use Rattle.std.specs.Prelude.{◌≡◌, ◌≤◌, ◌<◌, eqb, MatchOption};
ghost use Rattle.std.specs.Int.Bits.{bit_and};
ghost use Rattle.base.specs.Truths.{pick, Decides};
ghost use Rattle.policy.specs.Limits.{field_count};
ghost use Rattle.mesh.specs.Views.{most_cuts};
ghost use Rattle.mesh.specs.Blocks.{HasSets, Claiming, IsBlock, HasCell, Bounded, Middle, Before, First, SomeOf, GoOn, Holding};

use crate::cuts::Sets;
use policy::limits::FIELDS;
use std::array;

// A cell, by the number of its interval in each field.
pub type Cell = [u8; FIELDS];

// A block: in each field the intervals from lo's on, up to hi's and without it.
#[derive(Clone, Copy)]
pub struct Block {
    pub lo: Cell,
    pub hi: Cell,
    ghost ordered: { IsBlock lo hi },
}

// The boxes that have the cell.
#[tactic(auto, using(crate::proofs::Laws::Loops::claiming_one, crate::proofs::Laws::Loops::claiming_more))]
fn claiming(sets: &Sets, c: Cell) -> u64
    requires { HasSets c }
    ensures { Claiming sets.now c result }
{
    let mut set = sets[0][c[0] as usize];
    for f in 1..FIELDS {
        set &= sets[f][c[f] as usize];
    }
    set
}

// Those of the boxes that have the last interval as well, or all where none has it.
fn lasting(boxes: u64, last: u64) -> u64
    ensures { result ≡ pick (eqb (bit_and boxes last) 0) boxes (bit_and boxes last) }
{
    if boxes & last == 0 {
        return boxes;
    }
    boxes & last
}

// Some of the boxes: field by field those that go on to the end of the block, where there are any.
#[tactic(auto, using(crate::proofs::Laws::Loops::some_all, crate::proofs::Laws::Loops::some_lasting))]
fn chosen(sets: &Sets, hi: Cell, boxes: u64) -> u64
    requires { Bounded hi × (boxes ≡ 0 → ⊥) }
    ensures { SomeOf boxes result }
{
    let mut some = boxes;
    for f in 0..FIELDS {
        some = lasting(some, sets[f][hi[f] as usize - 1]);
    }
    some
}

// Where the boxes, which have interval `lo` of field f, end: the first interval after it that one of them does not have, if there is one before `hi`.
fn end(sets: &Sets, f: usize, lo: u8, hi: u8, boxes: u64) -> Option<u8>
    requires { (f < field_count) × (lo < hi) × (hi ≤ most_cuts) }
    ensures { MatchOption result (GoOn sets.now f lo hi boxes hi) (λ e. GoOn sets.now f lo hi boxes e × (e < hi)) }
{
    for i in lo + 1..hi {
        if boxes & sets[f][i as usize] != boxes {
            return Some(i);
        }
    }
    None
}

// Whether c is before the best cell so far, if there is one: smaller in the first field in which they differ.
#[tactic(auto, using(crate::proofs::Laws::Loops::earlier_decides))]
fn before(c: Cell, best: Option<Cell>) -> bool
    ensures { Decides result (Before c best) }
{
    match best {
        Some(d) => c < d,
        None => true,
    }
}

// How often the way from a block's first cell to its end is halved until nothing is left of it.
const HALVINGS: usize = 8;

impl Block {
    // Whether there is a cell in the block.
    fn has_cell(self) -> bool
        ensures { Decides result (HasCell self.lo self.hi) }
    {
        self.lo.iter().zip(&self.hi).all(|(l, h)| l < h)
    }

    // The cell in the middle, in each field.
    fn middle(self) -> Cell
        ensures { Middle self.lo self.hi result }
    {
        array::from_fn(|f| self.lo[f] + (self.hi[f] - self.lo[f]) / 2)
    }

    // Those of the boxes that have the block's middle as well; or, where none has, what is halfway there, and so on.
    #[tactic(auto, using(crate::proofs::Laws::Loops::some_both))]
    fn far(self, sets: &Sets, boxes: u64) -> u64
        requires { HasCell self.lo self.hi × (boxes ≡ 0 → ⊥) }
        ensures { SomeOf boxes result }
    {
        let Block { lo, mut hi } = self;
        for _ in 0..HALVINGS {
            hi = Block { lo, hi }.middle();
            let both = boxes & claiming(sets, hi);
            if both != 0 {
                return both;
            }
        }
        boxes
    }

    // The first cell of the block that no box has, if it is before `best`, else `best`.
    #[cycle(least_rest)]
    pub fn least(self, sets: &Sets, best: Option<Cell>) -> Option<Cell>
        ensures { First sets.now self.lo self.hi best result }
    {
        if !self.has_cell() {
            return best;
        }
        if !before(self.lo, best) {
            return best;
        }
        let boxes = claiming(sets, self.lo);
        if boxes == 0 {
            return Some(self.lo);
        }
        let some = chosen(sets, self.hi, self.far(sets, boxes));
        self.rest(sets, best, some)
    }

    // The same of a block whose first cell these boxes have. What they leave of it is a block past their end in each field, the last field first.
    #[cycle(least_rest)]
    fn rest(self, sets: &Sets, best: Option<Cell>, boxes: u64) -> Option<Cell>
        requires { HasCell self.lo self.hi × Holding sets.now self.lo self.hi boxes field_count × (boxes ≡ 0 → ⊥) }
        ensures { First sets.now self.lo self.hi best result }
    {
        let Block { lo, mut hi } = self;
        let mut found = best;
        for f in (0..FIELDS).rev() {
            if let Some(e) = end(sets, f, lo[f], hi[f], boxes) {
                let mut past = lo;
                past[f] = e;
                found = Block { lo: past, hi }.least(sets, found);
                hi[f] = e;
            }
        }
        found
    }
}
