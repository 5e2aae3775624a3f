// One row of the element table, by value.
ghost use Rattle.tables.specs.Layout.{no_row, row_at, put_row};

use crate::entry::Entry;
use crate::layout::ROW;
use split::row::Row;

impl Entry for Row {
    type Number = u32;

    ghost unused = { no_row };

    ghost at = { row_at };

    ghost put = { put_row };

    fn unused() -> Row {
        Row {
            v0: 0,
            v1: 0,
            v2: 0,
            v3: 0,
            tag: 0,
            parent: 0,
            child: 0,
            depth: 0,
        }
    }

    fn read(table: &[u32], k: usize) -> Row {
        if k < table.len() / ROW {
            let i = ROW * k;
            return Row {
                v0: table[i],
                v1: table[i + 1],
                v2: table[i + 2],
                v3: table[i + 3],
                tag: table[i + 4],
                parent: table[i + 5],
                child: table[i + 6],
                depth: table[i + 7],
            };
        }
        Row::unused()
    }

    fn write(self, table: &mut [u32], k: usize) {
        if k < table.len() / ROW {
            let i = ROW * k;
            table[i] = self.v0;
            table[i + 1] = self.v1;
            table[i + 2] = self.v2;
            table[i + 3] = self.v3;
            table[i + 4] = self.tag;
            table[i + 5] = self.parent;
            table[i + 6] = self.child;
            table[i + 7] = self.depth;
        }
    }
}
