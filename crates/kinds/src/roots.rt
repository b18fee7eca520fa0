// Lists of roots: the gateways of a row, and the roots that a chain has visited.
ghost use Rattle.std.specs.Prelude.{◌≡◌};
ghost use Rattle.base.specs.Lists.{among};
ghost use Rattle.policy.specs.Views.{row_of};
ghost use Rattle.kinds.specs.Tests.{in_order, twice};

use policy::row::Row;

// Whether x is among the roots.
// As it is: compared one by one, since with `contains` is_gateway takes 12 ns and so 2.
pub fn among(x: u8, at: &[u8]) -> bool
    ensures { result ≡ among x at.now }
{
    for root in at {
        if *root == x {
            return true;
        }
    }
    false
}

// Whether a stands at some place and b at a later one.
pub fn in_order(a: u8, b: u8, at: &[u8]) -> bool
    ensures { result ≡ in_order a b at.now }
{
    let mut begun = false;
    for x in at {
        if begun && *x == b {
            return true;
        }
        begun |= *x == a;
    }
    false
}

// Whether some root stands at two places.
pub fn repeats(at: &[u8]) -> bool
    ensures { result ≡ twice at.now }
{
    let mut rest = at;
    while let [x, later @ ..] = rest {
        if among(*x, later) {
            return true;
        }
        rest = later;
    }
    false
}

// Whether x is a gateway of the row.
pub fn is_gateway(x: u8, r: Row) -> bool
    ensures { result ≡ among x (row_of r).gateways }
{
    among(x, r.gateway_list())
}
