// The frame of an entity: parent, layer, mask.
ghost use Rattle.std.specs.Prelude.{◌≡◌, ◌*◌, ◌≤◌, length};
ghost use Rattle.base.specs.Checks.{refusal};
ghost use Rattle.base.specs.Lists.{among};
ghost use Rattle.hexlines.specs.Lines.{bytes_of};
ghost use Rattle.policy.specs.Views.{entity_of};
ghost use Rattle.frames.specs.Views.{fault_of};
ghost use Rattle.frames.specs.Entities.{entity_length, entity_from, entity_place, other_layers, root_rule, other_rule, entity_content};

use crate::refusals::Reason;
use crate::{parts, refusals};
use policy::limits::{ENTITIES, NO_PARENT};
use policy::row::Entity;

// Whether the part has an entity's length.
pub fn has_length(part: &[u8]) -> bool
    ensures { result ≡ entity_length (bytes_of part.now) }
{
    parts::has_bytes(part, 3)
}

// Whether the sequence can go on with an entity, after `caps` caps and `entities` entities.
pub fn has_place(caps: usize, entities: usize) -> bool
    ensures { result ≡ entity_place caps entities }
{
    caps == 0 && entities < ENTITIES
}

// The entity that the part says.
pub fn read(part: &[u8]) -> Entity
    requires { 2 * 3 ≤ length part.now }
    ensures { entity_of result ≡ entity_from (bytes_of part.now) }
{
    Entity {
        parent: hexlines::u8_at(part, 0),
        layer: hexlines::u8_at(part, 1),
        mask: hexlines::u8_at(part, 2),
    }
}

// Whether the layer is one that an entity with a parent has.
#[tactic(auto, unfolding(base::specs::Lists::among))]
fn is_layer(layer: u8) -> bool
    ensures { result ≡ among layer other_layers }
{
    matches!(layer, 2 | 3 | 5 | 7)
}

// Whether e, with no parent, keeps the rules of a root.
fn is_good_root(e: Entity) -> bool
    ensures { result ≡ root_rule (entity_of e) }
{
    e.layer == 0 && e.mask % 2 == 0 && e.mask < 128
}

// Whether e, with a parent, keeps its rules after the entities with these layers.
fn is_good_other(layers: &[u8], e: Entity) -> bool
    ensures { result ≡ other_rule layers.now (entity_of e) }
{
    let p = e.parent as usize;
    is_layer(e.layer) && p < layers.len() && layers[p] < e.layer && e.mask == 0
}

// Ok, or why the entity is refused, which breaks its rules. The layers are those of the entities before it.
#[tactic(auto, unfolding(base::specs::Checks::refusal, crate::specs::Entities::entity_rule))]
pub fn broken(layers: &[u8], e: Entity) -> Result<(), Reason>
    ensures { fault_of result ≡ refusal (entity_content layers.now (entity_of e)) }
{
    let good = if e.parent == NO_PARENT {
        is_good_root(e)
    } else {
        is_good_other(layers, e)
    };
    refusals::keep(good, Reason::BadEntity)
}
