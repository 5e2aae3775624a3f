// One element, shown inside the caller's own table.
ghost use Rattle.std.specs.Prelude.{◌≡◌};
ghost use Rattle.tables.specs.Layout.{shown};

use crate::layout::ROW;

// The four vertex numbers of a row below the count, or the empty part.
pub fn element(table: &[u32], count: usize, row: usize) -> &[u32]
    ensures { result.now ≡ shown table.now count row }
{
    if table.len() / ROW < count {
        return &table[0..0];
    }
    if count <= row {
        return &table[0..0];
    }
    let at = ROW * row;
    let end = at + 4;
    &table[at..end]
}
