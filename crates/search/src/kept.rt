// The covers that a walk keeps for a field, the one that served last first.
ghost use Rattle.std.specs.Prelude.{◌≡◌, replicate, Some, None};
ghost use Rattle.search.specs.Covers.{kept_covers, stops, recall, shifted};

// How many are kept.
pub const COVERS: usize = 16;

// Those that there are come before the empty places.
#[derive(Clone, Copy)]
pub struct Kept([Option<u64>; COVERS]);

impl Kept {
    // No covers yet.
    pub fn new() -> Kept
        ensures { result.0 ≡ replicate kept_covers None }
    {
        Kept([None; COVERS])
    }

    // The first kept cover whose boxes are all in the set. An empty place ends them. The covers are lent, and left unchanged.
    pub fn recalled(&self, set: u64) -> Option<u64>
        ensures { result ≡ recall set self.now.0 }
    {
        *self
            .0
            .iter()
            .find(|kept| kept.is_none_or(|c| c & set == c))?
    }

    // Puts the cover before the others. If it was among them it goes from there; else the last goes, where there is no room.
    pub fn keep(&mut self, cover: u64)
        ensures { self.new.0 ≡ shifted cover (Some cover) self.old.0 }
    {
        let mut carried = Some(cover);
        for place in self.0.iter_mut() {
            let old = std::mem::replace(place, carried);
            if old.is_none_or(|c| c == cover) {
                return;
            }
            carried = old;
        }
    }
}
