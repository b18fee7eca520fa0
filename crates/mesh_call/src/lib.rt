// The call Mesh, of document 02, [8]. Neither this crate nor one that it stands on has the search in it (crates.txt).
#![tactic(auto)]

ghost use Rattle.std.specs.Prelude.{◌≡◌};
ghost use Rattle.reader.specs.States.{parse};
ghost use Rattle.covers.specs.Views.{result_of};
ghost use Rattle.calls.specs.Views.{answer_of};
ghost use Rattle.mesh_call.specs.Calls.{mesh_of, MeshAnswers};

use calls::{Witness, table_with};
use frames::refusals::Refusal;
use policy::selector::Packet;

// The least packet that row k takes, or none where it is dead.
fn judged(text: &[u8], k: usize) -> Result<Option<Packet>, Refusal>
    ensures { answer_of result_of result ≡ mesh_of (parse text.now) k }
{
    let t = table_with(text, k)?;
    Ok(mesh::judge(&t, k))
}

// Mesh: what Witness answers, by another method: the least packets of the cells into which the boxes that could cover row k cut its own. The text is
// unchanged.
pub fn mesh_of(text: &[u8], k: usize) -> Witness
    ensures { MeshAnswers (parse text.now) k result }
{
    Witness::from(judged(text, k))
}
