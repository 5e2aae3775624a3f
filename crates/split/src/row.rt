// A tagged row by value: its refinement edge and its two children (Algorithm 1).
// Functions and no methods: the names `split::row::edge`, `first`, .. are those of the promises, and they may not change.

ghost use Rattle.std.specs.Prelude.{◌≡◌, cond, ◌-◌, leb};
ghost use Rattle.split.specs.Split.{number, corners, far, by_tag};
ghost use Rattle.split.specs.Row as row;
ghost use Rattle.split.specs.Row.{corners_of, read_tag, tag_of, edge_of, below, with_child, same_row, deeper, first_of, second_of};

use std::fmt;

// The tag of a root, which is the largest: the dimension.
const TOP: u32 = 3;

// The first child is 0 where there is none, and a root is its own parent: so document 01 has the table, and no Option stands there.
#[derive(Clone, Copy, Debug, PartialEq, Eq)]
pub struct Row {
    pub v0: u32,
    pub v1: u32,
    pub v2: u32,
    pub v3: u32,
    pub tag: u32,
    pub parent: u32,
    pub child: u32,
    pub depth: u32,
}

// The two ends of an edge.
#[derive(Clone, Copy, Debug, PartialEq, Eq)]
pub struct Ends {
    pub small: u32,
    pub large: u32,
}

// v0 to v3, tag, parent, child, depth.
impl fmt::Display for Row {
    ghost use Rattle.std.specs.Prelude.{Some};
    ghost use Rattle.split.specs.Shown.{row_text};

    ghost output = { λ r. Some (row_text r) };

    fn fmt<W: fmt::Write>(&self, f: &mut fmt::Formatter<W>) -> fmt::Result {
        write!(
            f,
            "{} {} {} {} {} {} {} {}",
            self.v0, self.v1, self.v2, self.v3, self.tag, self.parent, self.child, self.depth
        )
    }
}

impl fmt::Display for Ends {
    ghost use Rattle.std.specs.Prelude.{Some};
    ghost use Rattle.split.specs.Shown.{ends_text};

    ghost output = { λ e. Some (ends_text e) };

    fn fmt<W: fmt::Write>(&self, f: &mut fmt::Formatter<W>) -> fmt::Result {
        write!(f, "{} {}", self.small, self.large)
    }
}

// The vertex at the place of a tag, which may be another row's. (`tag_of` reads a tag by the same tests, and answers a number: an enum of tags between them would be read by a second match.)
#[tactic(auto, unfolding(crate::specs::Row::read_tag))]
pub fn across(tag: u32, r: Row) -> u32
    ensures { result ≡ far (read_tag tag) (corners_of r) }
{
    match tag {
        1 => r.v1,
        2 => r.v2,
        _ => r.v3,
    }
}

#[tactic(auto, unfolding(crate::specs::Row::edge_of))]
pub fn edge(r: Row) -> Ends
    ensures { result ≡ edge_of r }
{
    let a = r.v0;
    let b = across(r.tag, r);
    Ends {
        small: a.min(b),
        large: a.max(b),
    }
}

#[tactic(auto, unfolding(crate::specs::Row::deeper))]
fn next_depth(d: u32) -> u32
    ensures { result ≡ deeper d }
{
    d.saturating_add(1)
}

// The tag of a row as it is read: a number outside 1 to 3 is read as 3. (With `1 | 2 => r.tag` a split takes 11 % longer.)
#[tactic(auto, unfolding(crate::specs::Row::read_tag))]
fn tag_of(r: Row) -> u32
    ensures { result ≡ number (tag_of r) }
{
    match r.tag {
        1 => 1,
        2 => 2,
        _ => 3,
    }
}

// Algorithm 1, "new tag", where the largest tag is `top`.
fn next_tag(tag: u32, top: u32) -> u32
    ensures { result ≡ cond (leb 2 tag) (tag - 1) top }
{
    if tag >= 2 { tag - 1 } else { top }
}

// A child of the row r, whose own number is `own`, with r's vertices where it does not get its own.
#[tactic(auto, using(crate::proofs::laws::SplitTable::after_number), unfolding(crate::specs::Row::below))]
fn below(r: Row, own: u32) -> Row
    ensures { result ≡ below r own (corners_of r) }
{
    Row {
        tag: next_tag(tag_of(r), TOP),
        parent: own,
        child: 0,
        depth: next_depth(r.depth),
        ..r
    }
}

// What a child has at a place: one vertex below the tag, one at the tag, one above it.
// Tests, as with `match place.cmp(&tag)` a split takes 7 % longer.
fn by_tag(place: u32, tag: u32, low: u32, new: u32, high: u32) -> u32
    ensures { result ≡ by_tag place tag low new high }
{
    if place < tag {
        low
    } else if place == tag {
        new
    } else {
        high
    }
}

// Algorithm 1, T1: [v0, .., v(g-1), m, v(g+1), .., v3]. One function for both children was measured, and is slower.
pub fn first(r: Row, own: u32, m: u32) -> Row
    ensures { result ≡ first_of r own m }
{
    let g = tag_of(r);
    let a0 = by_tag(0, g, r.v0, m, r.v0);
    let a1 = by_tag(1, g, r.v1, m, r.v1);
    let a2 = by_tag(2, g, r.v2, m, r.v2);
    let a3 = by_tag(3, g, r.v3, m, r.v3);
    Row {
        v0: a0,
        v1: a1,
        v2: a2,
        v3: a3,
        ..below(r, own)
    }
}

// Algorithm 1, T2: [v1, .., vg, m, v(g+1), .., v3]. Place 3 is below no tag.
pub fn second(r: Row, own: u32, m: u32) -> Row
    ensures { result ≡ second_of r own m }
{
    let g = tag_of(r);
    let b0 = by_tag(0, g, r.v1, m, r.v0);
    let b1 = by_tag(1, g, r.v2, m, r.v1);
    let b2 = by_tag(2, g, r.v3, m, r.v2);
    let b3 = by_tag(3, g, r.v3, m, r.v3);
    Row {
        v0: b0,
        v1: b1,
        v2: b2,
        v3: b3,
        ..below(r, own)
    }
}

// A root of these four vertices, whose own number is `own`. They come one by one, as its clause and its callers have them.
pub fn root(tag: u32, own: u32, v0: u32, v1: u32, v2: u32, v3: u32) -> Row
    ensures { result ≡ row.root tag own (corners v0 v1 v2 v3) }
{
    Row {
        v0,
        v1,
        v2,
        v3,
        tag,
        parent: own,
        child: 0,
        depth: 0,
    }
}

pub fn with_child(r: Row, child: u32) -> Row
    ensures { result ≡ with_child r child }
{
    Row { child, ..r }
}

// Whether two rows are the same but for the first child.
pub fn same_row(a: Row, b: Row) -> bool
    ensures { result ≡ same_row a b }
{
    with_child(a, b.child) == b
}
