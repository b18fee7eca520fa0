// Entries written one after another, three bytes each.
ghost use Rattle.std.specs.Prelude.{◌≤◌, ◌<◌, [], ◌∷◌, length, get_or};
ghost use Rattle.policy.specs.Limits.{most_rows};
ghost use Rattle.kinds.specs.Kinds.{kind_count};
ghost use Rattle.kinds.specs.Entries.{entry};
ghost use Rattle.listing.specs.Bytes.{Room, Appends};
ghost use Rattle.listing.specs.Marks.{kind_marked, block_marked, block_of, BlockFits};

use crate::limits::ENTRY_BYTES;
use crate::marks::Marks;
use kinds::numbers;

// A block of entries is of `things` things, rows or filters, and of `kinds` kinds from `kind` on.
#[derive(Clone, Copy)]
pub struct Block {
    pub things: usize,
    pub kind: u8,
    pub kinds: u8,
}

// A buffer, and how many entries stand at its start.
#[derive(Drop)]
pub struct Writer<'a> {
    pub out: &'a mut [u8],
    pub n: usize,
}

impl Writer<'_> {
    // Writes an entry after the others. The rest of the buffer is unchanged.
    fn put(&mut self, i: u8, kind: u8, j: u8)
        requires { Room (length self.old.out.now) self.old.n (entry i kind j ∷ []) }
        ensures { Appends self.old self.new (entry i kind j ∷ []) }
    {
        let at = ENTRY_BYTES * self.n;
        self.out[at..at + ENTRY_BYTES].copy_from_slice(&[i, kind, j]);
        self.n += 1;
    }

    // Writes the entries of thing i and a kind, with each of `things` things and then alone, after the others. The rest of the buffer is unchanged.
    fn put_kind(&mut self, marks: &Marks, things: usize, i: usize, kind: u8)
        requires { Room (length self.old.out.now) self.old.n (kind_marked (get_or marks.now.own i 0) marks.now.pairs things i kind) × (i < things) × (things ≤ most_rows) × (kind ≤ kind_count) }
        ensures { Appends self.old self.new (kind_marked (get_or marks.now.own i 0) marks.now.pairs things i kind) }
    {
        for j in 0..things {
            if marks.has_pair(i, j, kind) {
                self.put(i as u8, kind, j as u8);
            }
        }
        if marks.has_alone(i, kind) {
            self.put(i as u8, kind, numbers::NO_SECOND);
        }
    }

    // Writes the entries of a block, thing by thing and kind by kind, after the others. The rest of the buffer is unchanged.
    pub fn put_block(&mut self, marks: &Marks, b: Block)
        requires { Room (length self.old.out.now) self.old.n (block_marked marks.now.own marks.now.pairs (block_of b)) × BlockFits b }
        ensures { Appends self.old self.new (block_marked marks.now.own marks.now.pairs (block_of b)) }
    {
        for i in 0..b.things {
            for kind in b.kind..b.kind + b.kinds {
                self.put_kind(marks, b.things, i, kind);
            }
        }
    }
}
