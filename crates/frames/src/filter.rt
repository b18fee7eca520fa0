// The frame of a filter: root, box, and its action if it is said.
ghost use Rattle.std.specs.Prelude.{◌≡◌, ◌*◌, ◌≤◌, length};
ghost use Rattle.base.specs.Checks.{refusal};
ghost use Rattle.hexlines.specs.Lines.{bytes_of};
ghost use Rattle.policy.specs.Views.{filter_of};
ghost use Rattle.frames.specs.Views.{fault_of};
ghost use Rattle.frames.specs.Filters.{action_place, filter_length, filter_from, filter_place, filter_content};

use crate::refusals::Reason;
use crate::widths::{ADDRESS, PORT, PROTOCOL};
use crate::{numbers, parts, refusals};
use policy::limits::{FILTERS, PASSING};
use policy::row::Filter;
use relations::selector;

// The place of the action, after the root, and low and high of each field of the box.
const ACTION: usize = 1 + 4 * ADDRESS + 4 * PORT + 2 * PROTOCOL;

// Whether the part has a filter's length, without an action or with one that there is.
pub fn has_length(part: &[u8]) -> bool
    ensures { result ≡ filter_length (bytes_of part.now) }
{
    let long = parts::has_bytes(part, ACTION) || parts::has_bytes(part, ACTION + 1);
    long && parts::byte_or_zero(part, ACTION) <= PASSING
}

// Whether the sequence can go on with a filter, after `rows` rows and `filters` filters; `floored` is 1 if the floor has been read, else 0.
// As it is: a number, since has_place promises filter_place of each.
pub fn has_place(floored: u8, rows: usize, filters: usize) -> bool
    ensures { result ≡ filter_place floored rows filters }
{
    floored == 1 && rows == 0 && filters < FILTERS
}

// The filter that the part says.
pub fn read(part: &[u8]) -> Filter
    requires { 2 * action_place ≤ length part.now }
    ensures { filter_of result ≡ filter_from (bytes_of part.now) }
{
    Filter {
        root: hexlines::u8_at(part, 0),
        selector: parts::selector(part, 1, ADDRESS),
        action: parts::byte_or_zero(part, ACTION),
    }
}

// Ok, or why the filter is refused, by the first rule that its content breaks. The parents are those of the entities read so far.
#[tactic(auto, unfolding(base::specs::Checks::refusal))]
pub fn broken(parents: &[u8], f: Filter) -> Result<(), Reason>
    ensures { fault_of result ≡ refusal (filter_content parents.now (filter_of f)) }
{
    refusals::keep(numbers::is_root(parents, f.root), Reason::BadNumber)?;
    refusals::keep(selector::inhabited(f.selector), Reason::EmptyRange)
}
