// What one of the three lent tables holds: a point, a record or a row. A loop over a table is written once, for all three.
ghost use Rattle.std.specs.Prelude.{◌≡◌, ℕ, ◌<◌, List};
ghost use Rattle.tables.specs.Steps.{over};

pub trait Entry: Copy {
    // What the table is made of.
    type Number: Copy;

    ghost unused: { Self };

    ghost at: { List Self.Number → ℕ → Self };

    ghost put: { List Self.Number → ℕ → Self → List Self.Number };

    // What an unused place holds: zeros.
    fn unused() -> Self
        ensures { result ≡ unused };

    // The k-th, or zeros where the table has no k-th. Each impl names its numbers place by place, here and in `write`: by way of an array it would name them all the same.
    fn read(table: &[Self::Number], k: usize) -> Self
        ensures { result ≡ at table.now k };

    // Stores the k-th; nothing changes where the table has no k-th.
    fn write(self, table: &mut [Self::Number], k: usize)
        ensures { table.new ≡ put table.old k self };
}

// Puts at each place from `from` on, below `to`, what `entry` makes of the place and of what stands there.
pub fn put_each<E: Entry, F: Fn(usize, E) -> E>(
    table: &mut [E::Number],
    from: usize,
    to: usize,
    entry: F,
)
    requires { (k : ℕ) (e : E) → k < to → F.pre entry k e }
    ensures { (g : ℕ → E → E) → ((k : ℕ) (e : E) (r : E) → k < to → F.post entry k e r → r ≡ g k e) → table.new ≡ over (λ t k. E.put t k (g k (E.at t k))) table.old from to }
{
    for k in from..to {
        entry(k, E::read(table, k)).write(table, k);
    }
}
