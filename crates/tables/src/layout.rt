// The widths of the three tables, named once, the room that lent tables give, and the counts of what they hold.

ghost use Rattle.std.specs.Prelude.{◌≡◌, min};
ghost use Rattle.tables.specs.Layout.{room_of, started, resized};

// Numbers that a vertex takes in the coordinate table and in the vertex table, and that an element takes.
pub const POINT: usize = 3;

pub const RECORD: usize = 2;

pub const ROW: usize = 8;

pub const MOST_VERTICES: usize = 20000;

pub const MOST_ROWS: usize = 100000;

// The second number of an initial vertex, whose first is its colour: document 01 has the table so.
pub const INITIAL: u32 = 4294967295;

// What lent tables have room for. Not `Counts`, which are handed from call to call and will hold more.
#[derive(Clone, Copy, Debug, PartialEq, Eq)]
pub struct Size {
    pub vertices: usize,
    pub rows: usize,
}

// What is handed from call to call; made by `started` and `resized` only.
#[derive(Clone, Copy, Debug, PartialEq, Eq)]
pub struct Counts {
    pub vertices: usize,
    pub rows: usize,
}

// The counts of a mesh just opened.
pub fn started(vertices: usize, rows: usize) -> Counts
    ensures { result ≡ started vertices rows }
{
    Counts { vertices, rows }
}

// The counts of the same mesh when it has so many vertices and rows. All else that c tells is kept.
pub fn resized(c: Counts, vertices: usize, rows: usize) -> Counts
    ensures { result ≡ resized c vertices rows }
{
    let mut d = c;
    d.vertices = vertices;
    d.rows = rows;
    d
}

// The smaller of two numbers.
pub fn least(a: usize, b: usize) -> usize
    ensures { result ≡ min a b }
{
    a.min(b)
}

// The room of tables of these lengths.
pub fn room(points: usize, records: usize, rows: usize) -> Size
    ensures { result ≡ room_of points records rows }
{
    let held = least(points / POINT, records / RECORD);
    Size {
        vertices: least(MOST_VERTICES, held),
        rows: least(MOST_ROWS, rows / ROW),
    }
}
