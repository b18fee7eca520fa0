// The table. Its long parts are arrays of numbers, so that a function that is called in a loop can be lent them; what it
// looks at comes back as a small struct.
ghost use Rattle.std.specs.Prelude.{◌≡◌, ◌+◌, ◌<◌, ◌≤◌, set};
ghost use Rattle.policy.specs.Limits.{most_entities, technologies, most_filters, most_rows, most_selectors, field_count};
ghost use Rattle.policy.specs.Views.{range_of, selector_of, row_of, filter_of, coefficients_of, entity_of, range_in, selector_in, filter_in, row_in, table_of, Held, Stands, no_table};
ghost use Rattle.policy.specs.Words.{packed_range, unpacked_range, Packs};
ghost use Rattle.policy.specs.Wellformed.{SelectorRule};
ghost use Rattle.policy.specs.Writes.{put_selector, head_of, put_head};

use crate::limits::{
    ENTITIES, FILTERS, HEAD_COUNT, NO_PARENT, ROWS, SELECTORS, TECHNOLOGIES, WORD_COUNT,
};
use crate::number::Number;
use crate::row::{Coefficients, Entity, Filter, Row};
use crate::selector::{Range, Selector};

// A number for each entity, and for each filter.
pub type PerEntity = [u8; ENTITIES];

pub type PerFilter = [u8; FILTERS];

// A cap for each technology but NULL.
pub type Caps = [Coefficients; TECHNOLOGIES];

// So many bytes for each row: holder, source, destination, technology, three coefficients, the number of gateways, eight gateways.
pub type Heads = [u8; HEAD_COUNT * ROWS];

// Ten words for each selector, as specs/Words.antt lays them out: first the rows' selectors, then the filters'.
pub type Bounds = [u64; WORD_COUNT * SELECTORS];

// As it is: runs with their counts, of fixed length, since the box has no heap; `table_of` and `Held` say what they hold.
#[derive(Clone, Copy)]
pub struct Table {
    // how many entities there are, and of each its parent, layer and mask
    pub entities: usize,
    pub parents: PerEntity,
    pub layers: PerEntity,
    pub masks: PerEntity,
    // how many technologies have their cap, from technology 1 on, and the caps
    pub capped: usize,
    pub caps: Caps,
    pub floor: Coefficients,
    // how many filters there are, and of each its root and its action
    pub filters: usize,
    pub filter_roots: PerFilter,
    pub filter_actions: PerFilter,
    // how many rows there are, and of each its head
    pub rows: usize,
    pub heads: Heads,
    // the selectors of rows and filters
    pub bounds: Bounds,
}

// The lines of a text before those of its rows: those of the entities, the caps, the floor (0 while it has not been read, 1 then) and the
// filters.
// As it is: a number for the floor, since `lines_before` promises the sum for each.
pub fn lines_before(entities: usize, caps: usize, floored: u8, filters: usize) -> usize
    requires { (entities ≤ most_entities) × (caps ≤ technologies) × (filters ≤ most_filters) }
    ensures { result ≡ entities + caps + floored + filters }
{
    entities + caps + floored as usize + filters
}

// How many values the bounds of a port have in their word, those of the protocol, and those of one port together.
const PORT_SIZE: u64 = 65536;

const PORTS_SIZE: u64 = PORT_SIZE * PORT_SIZE;

const PROTOCOL_SIZE: u64 = 4294967296;

// The words of a selector that hold the ports, and the protocol. Those of the addresses come before them, four each.
const PORTS: usize = 8;

const PROTOCOL: usize = 9;

// A range that one word holds, whose high is below size.
fn unpacked(word: u64, size: u64) -> Range
    requires { 0 < size }
    ensures { range_of result ≡ unpacked_range size word }
{
    Range {
        low: Number::new(word / size),
        high: Number::new(word % size),
    }
}

// Field f of the selector at k.
#[tactic(auto, using(crate::proofs::Laws::Runs::address_range), unfolding(crate::specs::Views::range_in, crate::specs::Views::numbers_at))]
pub fn range_at(bounds: &Bounds, k: usize, f: usize) -> Range
    requires { (k < most_selectors) × (f < field_count) }
    ensures { range_of result ≡ range_in bounds.now k f }
{
    let at = WORD_COUNT * k;
    if f < 2 {
        let place = at + 4 * f;
        return Range {
            low: Number::of_words(bounds[place], bounds[place + 1]),
            high: Number::of_words(bounds[place + 2], bounds[place + 3]),
        };
    }
    if f == 2 {
        return unpacked(bounds[at + PORTS] / PORTS_SIZE, PORT_SIZE);
    }
    if f == 3 {
        return unpacked(bounds[at + PORTS] % PORTS_SIZE, PORT_SIZE);
    }
    unpacked(bounds[at + PROTOCOL], PROTOCOL_SIZE)
}

// The selector at k.
pub fn selector_at(bounds: &Bounds, k: usize) -> Selector
    requires { k < most_selectors }
    ensures { selector_of result ≡ selector_in bounds.now k }
{
    Selector {
        source_address: range_at(bounds, k, 0),
        destination_address: range_at(bounds, k, 1),
        source_port: range_at(bounds, k, 2),
        destination_port: range_at(bounds, k, 3),
        protocol: range_at(bounds, k, 4),
    }
}

// A range as one word, whose bounds are below size.
fn packed(r: Range, size: u64) -> u64
    requires { Packs size (range_of r) }
    ensures { result ≡ packed_range size (range_of r) }
{
    r.low.lower_word() * size + r.high.lower_word()
}

// Writes the selector at k, and changes nothing else.
fn put_selector(bounds: &mut Bounds, k: usize, s: Selector)
    requires { (k < most_selectors) × SelectorRule (selector_of s) }
    ensures { bounds.new ≡ put_selector bounds.old k (selector_of s) }
{
    let at = WORD_COUNT * k;
    let from = s.source_address;
    let to = s.destination_address;
    bounds[at] = from.low.upper_word();
    bounds[at + 1] = from.low.lower_word();
    bounds[at + 2] = from.high.upper_word();
    bounds[at + 3] = from.high.lower_word();
    bounds[at + 4] = to.low.upper_word();
    bounds[at + 5] = to.low.lower_word();
    bounds[at + 6] = to.high.upper_word();
    bounds[at + 7] = to.high.lower_word();
    bounds[at + PORTS] = packed(s.source_port, PORT_SIZE) * PORTS_SIZE
        + packed(s.destination_port, PORT_SIZE);
    bounds[at + PROTOCOL] = packed(s.protocol, PROTOCOL_SIZE);
}

// Writes the bytes of the row at i besides its selector, and changes nothing else.
fn put_head(heads: &mut Heads, i: usize, head: [u8; HEAD_COUNT])
    requires { i < most_rows }
    ensures { heads.new ≡ put_head heads.old i head }
{
    let h = HEAD_COUNT * i;
    heads[h..h + HEAD_COUNT].copy_from_slice(&head);
}

// Writes the filter at k, and changes nothing else.
// As it is: lent the runs that it changes; a method of the table would have to say of each other field that it stays. So is `put_row`.
pub fn put_filter<'a>(
    roots: &'a mut PerFilter,
    actions: &'a mut PerFilter,
    bounds: &'a mut Bounds,
    k: usize,
    f: Filter,
)
    requires { (k < most_filters) × SelectorRule (selector_of f.selector) }
    ensures roots { roots.new ≡ set roots.old k f.root }
    ensures actions { actions.new ≡ set actions.old k f.action }
    ensures bounds { bounds.new ≡ put_selector bounds.old (most_rows + k) (selector_of f.selector) }
{
    roots[k] = f.root;
    actions[k] = f.action;
    put_selector(bounds, ROWS + k, f.selector);
}

// Writes the row at i, and changes nothing else.
pub fn put_row<'a>(heads: &'a mut Heads, bounds: &'a mut Bounds, i: usize, r: Row)
    requires { (i < most_rows) × SelectorRule (selector_of r.selector) }
    ensures heads { heads.new ≡ put_head heads.old i (head_of r) }
    ensures bounds { bounds.new ≡ put_selector bounds.old i (selector_of r.selector) }
{
    let g = r.gateways;
    let head = [
        r.holder,
        r.source,
        r.destination,
        r.technology,
        r.coefficients.header,
        r.coefficients.payload,
        r.coefficients.confidentiality,
        r.count,
        g[0],
        g[1],
        g[2],
        g[3],
        g[4],
        g[5],
        g[6],
        g[7],
    ];
    put_head(heads, i, head);
    put_selector(bounds, i, r.selector);
}

impl Table {
    // The row at i.
    pub fn row(&self, i: usize) -> Row
        requires { i < most_rows }
        ensures { row_of result ≡ row_in self.now.heads self.now.bounds i }
    {
        let heads = &self.heads;
        let h = HEAD_COUNT * i;
        Row {
            holder: heads[h],
            source: heads[h + 1],
            destination: heads[h + 2],
            technology: heads[h + 3],
            coefficients: Coefficients {
                header: heads[h + 4],
                payload: heads[h + 5],
                confidentiality: heads[h + 6],
            },
            selector: selector_at(&self.bounds, i),
            count: heads[h + 7],
            gateways: [
                heads[h + 8],
                heads[h + 9],
                heads[h + 10],
                heads[h + 11],
                heads[h + 12],
                heads[h + 13],
                heads[h + 14],
                heads[h + 15],
            ],
        }
    }

    // The filter at k.
    pub fn filter(&self, k: usize) -> Filter
        requires { k < most_filters }
        ensures { filter_of result ≡ filter_in self.now.filter_roots self.now.filter_actions self.now.bounds k }
    {
        Filter {
            root: self.filter_roots[k],
            selector: selector_at(&self.bounds, ROWS + k),
            action: self.filter_actions[k],
        }
    }

    // A table of nothing.
    pub fn new() -> Table
        ensures { Stands result no_table }
    {
        let zero = Coefficients {
            header: 0,
            payload: 0,
            confidentiality: 0,
        };
        Table {
            entities: 0,
            parents: [NO_PARENT; ENTITIES],
            layers: [0; ENTITIES],
            masks: [0; ENTITIES],
            capped: 0,
            caps: [zero; TECHNOLOGIES],
            floor: zero,
            filters: 0,
            filter_roots: [0; FILTERS],
            filter_actions: [0; FILTERS],
            rows: 0,
            heads: [0; HEAD_COUNT * ROWS],
            bounds: [0; WORD_COUNT * SELECTORS],
        }
    }
}
