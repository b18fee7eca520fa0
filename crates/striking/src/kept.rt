// The lines of a text that are kept: those before the rows, and those of the rows that are not dead.
ghost use Rattle.std.specs.Prelude.{◌≡◌, ◌+◌, ◌^◌, ◌<◌, length};
ghost use Rattle.std.specs.Iterator.{YieldsFirstRef, item_count};
ghost use Rattle.reader.specs.Lines.{lines_of};
ghost use Rattle.striking.specs.Lines.{keeps as keeps_test, lines_kept};

use crate::Flags;
use reader::lines::Lines;

// The lines that are kept, in order and each without its line feed, of those that are left of a text: the first of these is at `place`, and the rows'
// lines come after `others` lines.
#[derive(Drop)]
pub struct KeptLines<'a> {
    left: Lines<'a>,
    place: usize,
    dead: &'a Flags,
    others: usize,
    ghost countable: { place + length (lines_of left.unread.now) < 2 ^ 64 },
}

impl<'a> KeptLines<'a> {
    // Those of a whole text, which is lent.
    pub fn of(text: &'a [u8], dead: &'a Flags, others: usize) -> KeptLines<'a>
        ensures { lines_kept (keeps_test result.dead.now result.others) result.place (lines_of result.left.unread.now) ≡ lines_kept (keeps_test dead.now others) 0 (lines_of text.now) }
    {
        KeptLines {
            left: Lines { unread: text },
            place: 0,
            dead,
            others,
        }
    }

    // Whether the line at `place` is kept: it is one of the others, or of a row whose flag is not set.
    fn keeps(&self) -> bool
        ensures { result ≡ keeps_test self.now.dead.now self.now.others self.now.place }
    {
        let dead = self.dead;
        self.place < self.others || !dead.get(self.place - self.others).is_some_and(|d| *d)
    }
}

impl<'a> Iterator for KeptLines<'a> {
    type Item = &'a [u8];

    ghost next_gives = { YieldsFirstRef (λ k. lines_kept (keeps_test k.dead.now k.others) k.place (lines_of k.left.unread.now)) };

    ghost remaining = { item_count (λ k. lines_kept (keeps_test k.dead.now k.others) k.place (lines_of k.left.unread.now)) };

    fn next(&mut self) -> Option<&'a [u8]> {
        while let Some(line) = self.left.next() {
            let kept = self.keeps();
            self.place += 1;
            if kept {
                return Some(line);
            }
        }
        None
    }
}
