// The pairs of parents, indexed by a key made of both: no pair stands twice (clause 6), and whether two vertices are a pair (clause 7). A vertex with very many others costs no more than any, since each of its pairs has a key of its own.
ghost use Rattle.std.specs.Prelude.{◌≡◌, ◌+◌, ◌-◌, ◌≤◌, ◌<◌, length};
ghost use Rattle.chain.specs.Chain.{Indexed};
ghost use Rattle.tables.specs.Layout.{most_vertices};
ghost use Rattle.sound.specs.Check.{Decides};
ghost use Rattle.soundness.specs.Check as check;
ghost use Rattle.soundness.specs.Check.{Fresh, Run, Rising, pair_at, Has, Untaken, Entered};

use crate::heads::Heads;
use chain::wide;
use tables::entry::Entry;
use tables::record::Record;

// Whether vertex v has the parents a and b.
fn has(records: &[u32], v: usize, a: u32, b: u32) -> bool
    ensures { Decides (Has records.now v a b) result }
{
    Record::read(records, v)
        == Record {
            first: a,
            second: b,
        }
}

// The vertices from `first` on, below `end`, and the index of their pairs: the heads, then a link for each.
#[derive(Clone, Copy)]
pub struct Pairs<'a> {
    pub records: &'a [u32],
    pub index: &'a [u32],
    pub heads: Heads,
    pub first: usize,
    pub end: usize,
    pub ghost run: { Run first end },
    pub ghost rising: { Rising records.now first end },
    pub ghost indexed: { Indexed (pair_at heads records.now first) (end - first) (check.heads heads) index.now },
}

impl<'a> Pairs<'a> {
    // Whether no vertex has the parents a and b.
    pub fn untaken(&self, a: u32, b: u32) -> bool
        ensures { Decides (Untaken self.now.records.now self.now.first self.now.end a b) result }
    {
        let links = self.heads.count();
        let mut x = wide(self.index[self.heads.key(a, b)]);
        while 0 < x {
            let s = x - 1;
            if has(self.records, self.first + s, a, b) {
                return false;
            }
            x = wide(self.index[links + s]);
        }
        true
    }
}

// Sets the heads to zero; what the links hold is of no account.
pub fn clear_heads(heads: Heads, scratch: &mut [u32])
    requires { check.heads heads + most_vertices ≤ length scratch.old }
    ensures { Fresh heads scratch.new }
{
    scratch[..heads.count()].fill(0);
}

// Enters the pairs of the vertices from i on, below n, up to the first pair that is there already.
pub fn enter(records: &[u32], heads: Heads, i: usize, n: usize, scratch: &mut [u32]) -> bool
    requires run { Run i n }
    requires rising { Rising records.now i n }
    requires fresh { Fresh heads scratch.old }
    ensures { Entered heads records.now i n result scratch.new }
{
    for v in i..n {
        let held = Record::read(records, v);
        let before = Pairs {
            records,
            index: scratch,
            heads,
            first: i,
            end: v,
        };
        if !before.untaken(held.first, held.second) {
            return false;
        }
        let key = heads.key(held.first, held.second);
        chain::push(scratch, heads.count(), v - i, key);
    }
    true
}
