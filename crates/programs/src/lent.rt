// The three tables of a mesh, which a program lends together, and the counts of what they hold.

use tables::layout::Counts;

#[derive(Drop)]
pub struct Tables<'a> {
    pub points: &'a mut [f64],
    pub records: &'a mut [u32],
    pub rows: &'a mut [u32],
    pub counts: Counts,
}
