// The index: for a sequence of keys that only grows, the last place of each key and, from each place, the place before it with the same key.
// It lies in one lent table: the heads, one for each key below `base`, and from `base` on the links, one for each place.
#![tactic(auto)]

ghost use Rattle.std.specs.Prelude.{◌≡◌, length, set, replicate};
ghost use Rattle.chain.specs.Chain.{pushed};

// A head or a link is a place plus one, and 0 where there is none: it lies in a table of numbers that is lent, so it is no Option.
// Appends place i with its key. What does not fit changes nothing.
pub fn push(index: &mut [u32], base: usize, i: usize, key: usize)
    ensures { index.new ≡ pushed index.old base i key }
{
    if base <= key {
        return;
    }
    if index.len() <= base {
        return;
    }
    if index.len() - base <= i {
        return;
    }
    if 4294967295 <= i {
        return;
    }
    index[base + i] = index[key];
    index[key] = (i + 1) as u32;
}

// A number of a table as an index or a key: std has no `From` between the two.
pub fn wide(x: u32) -> usize
    ensures { result ≡ x }
{
    x as usize
}

// Stores a number where the table has the place.
pub fn put(table: &mut [u32], i: usize, x: u32)
    ensures { table.new ≡ set table.old i x }
{
    if i < table.len() {
        table[i] = x;
    }
}

// Sets every number of a table, or of a part of one, to zero.
pub fn clear(table: &mut [u32])
    ensures { table.new ≡ replicate (length table.old) 0 }
{
    table.fill(0);
}
