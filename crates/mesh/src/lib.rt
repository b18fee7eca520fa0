// Dead rows by a mesh: the row's box is cut before each low and after each high of the boxes that could cover it, and the least packets of cells are
// examined. The table is lent, and left unchanged.
#![tactic(auto)]

pub mod blocks;
pub mod cuts;

ghost use Rattle.std.specs.Prelude.{◌≡◌};
ghost use Rattle.policy.specs.Views.{packet_of, selector_in};
ghost use Rattle.policy.specs.Wellformed.{Ordered};
ghost use Rattle.covers.specs.Views.{boxes_at, BoxNumbers, result_of};
ghost use Rattle.covers.specs.Covers.{Asked};
ghost use Rattle.mesh.specs.Mesh.{mesh};
ghost use Rattle.mesh.specs.Verdicts.{mesh_in};

use crate::blocks::{Block, Cell};
use crate::cuts::CUTS;
use covers::Boxes;
use policy::limits::FIELDS;
use policy::selector::Packet;
use policy::table::{Bounds, Table};

// A row, by the number of its selector, and the boxes that cut it.
#[derive(Clone, Copy)]
pub struct Mesh<'a> {
    pub bounds: &'a Bounds,
    pub row: usize,
    pub boxes: Boxes,
    ghost listed: { BoxNumbers boxes },
}

impl Mesh<'_> {
    ghost use Rattle.mesh.specs.Views.{AskedRow};
    ghost use Rattle.mesh.specs.Blocks.{least_of, HasCuts};

    // The least packet of a cell: in each field the cut that begins its interval.
    fn packet(&self, c: Cell) -> Packet
        requires { AskedRow self.now × HasCuts self.now c }
        ensures { packet_of result ≡ least_of self.now c }
    {
        let number = |f: usize| self.nth(f, c[f] as usize);
        Packet {
            source_address: number(0),
            destination_address: number(1),
            source_port: number(2),
            destination_port: number(3),
            protocol: number(4),
        }
    }

    // The least packet of the row that no box has: that of the first cell in no box.
    fn examine(&self) -> Option<Packet>
        requires { AskedRow self.now }
        ensures { result_of result ≡ mesh (selector_in self.now.bounds.now self.now.row) (boxes_at self.now.bounds.now self.now.boxes 0) }
    {
        let mut sets = [[0; CUTS]; FIELDS];
        let mut hi = [0; FIELDS];
        for f in 0..FIELDS {
            hi[f] = self.fill(f, &mut sets[f]) as u8;
        }
        let all = Block {
            lo: [0; FIELDS],
            hi,
        };
        let c = all.least(&sets, None)?;
        Some(self.packet(c))
    }
}

// The least packet of row i that no row before it takes, or none where the row is dead.
pub fn judge(t: &Table, i: usize) -> Option<Packet>
    requires { Asked t.now.parents t.now.heads t.now.bounds i × Ordered (selector_in t.now.bounds i) }
    ensures { result_of result ≡ mesh_in t.now.parents t.now.heads t.now.bounds i }
{
    let mesh = Mesh {
        bounds: &t.bounds,
        row: i,
        boxes: covers::cover(t, i),
    };
    mesh.examine()
}
