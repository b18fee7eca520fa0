// How two entities, or two technologies, stand to each other.
ghost use Rattle.std.specs.Prelude.{◌≡◌};
ghost use Rattle.relations.specs.Relations.{relation_by};

// One of five, and no two.
#[derive(Clone, Copy, Debug, PartialEq, Eq)]
pub enum Relation {
    Equal,
    // the first ⪰ the second, or dominates it
    Above,
    // the second ⪰ the first, or dominates it
    Below,
    Kin,
    Disjoint,
}

// The relation of two things, by what was found of them.
pub fn by(equal: bool, above: bool, below: bool, kin: bool) -> Relation
    ensures { result ≡ relation_by equal above below kin }
{
    if equal {
        Relation::Equal
    } else if above {
        Relation::Above
    } else if below {
        Relation::Below
    } else if kin {
        Relation::Kin
    } else {
        Relation::Disjoint
    }
}
