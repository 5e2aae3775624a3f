// One vertex of the vertex table, by value: a colour and `INITIAL`, or two parents.
ghost use Rattle.tables.specs.Layout.{no_record, record_at, put_record};

use crate::entry::Entry;
use crate::layout::RECORD;

#[derive(Clone, Copy, Debug, PartialEq, Eq)]
pub struct Record {
    pub first: u32,
    pub second: u32,
}

impl Entry for Record {
    type Number = u32;

    ghost unused = { no_record };

    ghost at = { record_at };

    ghost put = { put_record };

    fn unused() -> Record {
        Record {
            first: 0,
            second: 0,
        }
    }

    fn read(table: &[u32], k: usize) -> Record {
        if k < table.len() / RECORD {
            let i = RECORD * k;
            return Record {
                first: table[i],
                second: table[i + 1],
            };
        }
        Record::unused()
    }

    fn write(self, table: &mut [u32], k: usize) {
        if k < table.len() / RECORD {
            let i = RECORD * k;
            table[i] = self.first;
            table[i + 1] = self.second;
        }
    }
}
