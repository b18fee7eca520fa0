// The frame of a cap: technology, three largest coefficients.
ghost use Rattle.std.specs.Prelude.{◌≡◌, ◌*◌, ◌≤◌, length};
ghost use Rattle.hexlines.specs.Lines.{bytes_of};
ghost use Rattle.policy.specs.Limits.{technologies};
ghost use Rattle.policy.specs.Views.{coefficients_of};
ghost use Rattle.frames.specs.Caps.{cap_length, cap_technology, cap_from, cap_place};

use crate::parts;
use policy::limits::TECHNOLOGIES;
use policy::row::Coefficients;

// Whether the part has a cap's length.
pub fn has_length(part: &[u8]) -> bool
    ensures { result ≡ cap_length (bytes_of part.now) }
{
    parts::has_bytes(part, 4)
}

// Whether the sequence can go on with the cap of this technology, after `entities` entities and `caps` caps.
pub fn has_place(entities: usize, caps: usize, technology: u8) -> bool
    requires { caps ≤ technologies }
    ensures { result ≡ cap_place entities caps technology }
{
    0 < entities && caps < TECHNOLOGIES && technology as usize == caps + 1
}

// The technology that is capped, or 0 where the part is empty.
pub fn technology(part: &[u8]) -> u8
    ensures { result ≡ cap_technology (bytes_of part.now) }
{
    parts::byte_or_zero(part, 0)
}

// The coefficients of the cap that the part says.
pub fn read(part: &[u8]) -> Coefficients
    requires { 2 * 4 ≤ length part.now }
    ensures { coefficients_of result ≡ cap_from (bytes_of part.now) }
{
    parts::coefficients(part, 1)
}
