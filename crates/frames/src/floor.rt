// The frame of the floor: three least coefficients.
ghost use Rattle.std.specs.Prelude.{◌≡◌, ◌*◌, ◌≤◌, length};
ghost use Rattle.hexlines.specs.Lines.{bytes_of};
ghost use Rattle.policy.specs.Views.{coefficients_of};
ghost use Rattle.frames.specs.Floors.{floor_length, floor_from, floor_place};

use crate::parts;
use policy::limits::TECHNOLOGIES;
use policy::row::Coefficients;

// Whether the part has the floor's length.
pub fn has_length(part: &[u8]) -> bool
    ensures { result ≡ floor_length (bytes_of part.now) }
{
    parts::has_bytes(part, 3)
}

// Whether the sequence can go on with the floor, after `caps` caps; `floored` is 1 if it has been read, else 0.
// As it is: a number, since has_place promises floor_place of each.
pub fn has_place(caps: usize, floored: u8) -> bool
    ensures { result ≡ floor_place caps floored }
{
    caps == TECHNOLOGIES && floored == 0
}

// The floor that the part says.
pub fn read(part: &[u8]) -> Coefficients
    requires { 2 * 3 ≤ length part.now }
    ensures { coefficients_of result ≡ floor_from (bytes_of part.now) }
{
    parts::coefficients(part, 0)
}
