// Coefficients of protection.
ghost use Rattle.std.specs.Prelude.{◌≡◌};
ghost use Rattle.policy.specs.Views.{coefficients_of};
ghost use Rattle.base.specs.Lists.{same};
ghost use Rattle.relations.specs.Coefficients.{at_least, larger as larger_of};

use policy::row::Coefficients;

// Whether no coefficient of a is smaller than b's.
#[tactic(auto, unfolding(crate::specs::Coefficients::at_least))]
pub fn at_least(a: Coefficients, b: Coefficients) -> bool
    ensures { result ≡ at_least (coefficients_of a) (coefficients_of b) }
{
    b.header <= a.header && b.payload <= a.payload && b.confidentiality <= a.confidentiality
}

// Whether the two are the same.
#[tactic(auto, unfolding(base::specs::Lists::same))]
pub fn equals(a: Coefficients, b: Coefficients) -> bool
    ensures { result ≡ same (coefficients_of a) (coefficients_of b) }
{
    a == b
}

// The larger of each coefficient.
#[tactic(auto, unfolding(crate::specs::Coefficients::larger))]
pub fn larger(a: Coefficients, b: Coefficients) -> Coefficients
    ensures { coefficients_of result ≡ larger_of (coefficients_of a) (coefficients_of b) }
{
    Coefficients {
        header: a.header.max(b.header),
        payload: a.payload.max(b.payload),
        confidentiality: a.confidentiality.max(b.confidentiality),
    }
}
