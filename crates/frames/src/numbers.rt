// Numbers of entities and of roots. The parents are those of the entities read so far, by number.
ghost use Rattle.std.specs.Prelude.{◌≡◌, ltb};
ghost use Rattle.frames.specs.Numbers.{is_root, all_roots};

use policy::limits::NO_PARENT;

// Whether e is an entity's number, of so many entities.
pub fn is_entity(count: usize, e: u8) -> bool
    ensures { result ≡ ltb e count }
{
    (e as usize) < count
}

// Whether e is a root's number.
#[tactic(auto, unfolding(crate::specs::Numbers::is_root))]
pub fn is_root(parents: &[u8], e: u8) -> bool
    ensures { result ≡ is_root parents.now e }
{
    parents.get(e as usize) == Some(&NO_PARENT)
}

// Whether each of the gateways is a root's number.
#[tactic(auto, unfolding(crate::specs::Numbers::all_roots))]
pub fn all_roots(parents: &[u8], gateways: &[u8]) -> bool
    ensures { result ≡ all_roots parents.now gateways.now }
{
    gateways.iter().all(|&g| is_root(parents, g))
}
