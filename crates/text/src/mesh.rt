// The text of a refined mesh.
ghost use Rattle.std.specs.Prelude.{◌≡◌, Ok};
ghost use Rattle.tables.specs.Report.{done};
ghost use Rattle.sound.specs.Check.{lent};
ghost use Rattle.text.specs.Putting.{Room, Puts, Adds};
ghost use Rattle.text.specs.Program.{headline, refusal_line, leaf_lines, refined_text};
ghost use Rattle.text.specs.Working.{Listable, Printable};

use crate::SIZE;
use crate::print::{print_c, print_leaves, print_midpoints};
use crate::put::Page;
use closure::answer::Refined;
use tables::layout::Counts;
use tables::refusal::Refusal;

// The C line alone.
#[tactic(auto, unfolding(crate::specs::Program::headline))]
pub fn refuse(out: &mut [u8; SIZE], refusal: Refusal) -> usize
    ensures { Puts 86 out.old 0 (refusal_line refusal) out.new result }
{
    let mut page = Page { out, at: 0 };
    let number = u64::from(u32::from(refusal.cause));
    print_c(&mut page, number, refusal.place as u64, 0, 0);
    page.at
}

// The C line of a refined mesh.
#[tactic(auto, unfolding(crate::specs::Program::headline))]
fn print_head(page: &mut Page<'_>, c: Counts, splits: usize)
    requires { Room 86 page.old.at }
    ensures { Adds 86 page.old (headline (done c splits)) page.new }
{
    print_c(page, 0, c.vertices as u64, c.rows as u64, splits as u64);
}

// The L lines of all leaves.
fn print_listed(page: &mut Page<'_>, points: &[f64], records: &[u32], rows: &[u32], c: Counts)
    requires { Listable (lent points.now records.now rows.now) c page.old.at }
    ensures { Adds 146688 page.old (leaf_lines (lent points.now records.now rows.now) c) page.new }
{
    let mut list = [0u32; 768];
    let mut levels = [0u32; 768];
    match leaves::leaves(points, records, rows, c, &mut list, &mut levels) {
        Ok(n) => print_leaves(page, rows, &list[..n], &levels[..n]),
        // Never: the tables are sound and the lists are long enough.
        Err(_) => (),
    }
}

// The C line, the P lines of the midpoints, and the L lines.
// The tables and the counts stay apart, as `closure::refine` and `leaves::leaves` take them.
fn print_lines(
    page: &mut Page<'_>,
    points: &[f64],
    records: &[u32],
    rows: &[u32],
    refined: Refined,
    initial: usize,
)
    requires mesh { Printable (lent points.now records.now rows.now) refined.counts initial }
    requires empty { page.old.at ≡ 0 }
    ensures { Adds 262144 page.old (refined_text initial (Ok refined) (lent points.now records.now rows.now)) page.new }
{
    let c = refined.counts;
    print_head(page, c, refined.splits);
    print_midpoints(page, points, records, initial, c.vertices);
    print_listed(page, points, records, rows, c);
}

// The text of a refined mesh, at the front of the buffer, and how many bytes it has.
pub fn print_mesh(
    out: &mut [u8; SIZE],
    points: &[f64],
    records: &[u32],
    rows: &[u32],
    refined: Refined,
    initial: usize,
) -> usize
    requires { Printable (lent points.now records.now rows.now) refined.counts initial }
    ensures { Puts 262144 out.old 0 (refined_text initial (Ok refined) (lent points.now records.now rows.now)) out.new result }
{
    let mut page = Page { out, at: 0 };
    print_lines(&mut page, points, records, rows, refined, initial);
    page.at
}
