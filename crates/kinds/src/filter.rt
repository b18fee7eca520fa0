// The kinds of two filters.
ghost use Rattle.std.specs.Prelude.{◌≡◌};
ghost use Rattle.policy.specs.Views.{filter_of};
ghost use Rattle.kinds.specs.Tests.{filter_shadowing, filter_redundancy};

use policy::limits::DROPPING;
use policy::row::Filter;
use relations::selector;

// 21, shadowing of filters: f, which is filter k, is of the root of g, which is filter m, and earlier, its box contains that of g, and their
// actions differ.
#[tactic(auto, unfolding(crate::specs::Tests::filter_shadowing))]
pub fn shadowing(k: usize, m: usize, f: Filter, g: Filter) -> bool
    ensures { result ≡ filter_shadowing k m (filter_of f) (filter_of g) }
{
    k < m && f.root == g.root && f.action != g.action && selector::contains(f.selector, g.selector)
}

// 22, redundancy of filters: f and g drop, are of different roots, and the box of f contains that of g.
#[tactic(auto, unfolding(crate::specs::Tests::filter_redundancy))]
pub fn redundancy(f: Filter, g: Filter) -> bool
    ensures { result ≡ filter_redundancy (filter_of f) (filter_of g) }
{
    f.action == DROPPING
        && g.action == DROPPING
        && f.root != g.root
        && selector::contains(f.selector, g.selector)
}
