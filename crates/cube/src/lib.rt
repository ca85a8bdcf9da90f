// What rows carry and cells total: the running sum and count of readings, and beside them the least and the greatest.
#![tactic(auto)]

ghost use Rattle.std.specs.Prelude.{◌≡◌, ◌+◌, ◌≤◌};
ghost use Rattle.cube.specs.Measure.{plus};
ghost use Rattle.cube.specs.Extremes.{Readings, wider, figures};
ghost use Rattle.cube.specs.Bounds.{Bounded, most};

// The sum and the count of readings.
#[derive(Clone, Copy)]
pub struct Total {
    pub sum: i64,
    pub count: u32,
}

// The least and the greatest of readings: of none, of some that are not known, or both.
#[derive(Clone, Copy)]
pub enum Extremes {
    Any,
    Unknown,
    Known { least: i64, greatest: i64 },
}

// What a row carries: sum, count and extremes.
#[derive(Clone, Copy)]
pub struct Figures {
    pub sums: Total,
    pub extremes: Extremes,
}

impl Total {
    // One row more: sum plus sum, count plus count.
    pub fn plus(mut self, row: Total) -> Self
        requires { Bounded self × Bounded row × (self.count + row.count ≤ most) }
        ensures { result ≡ plus self row }
    {
        self.sum += row.sum;
        self.count += row.count;
        self
    }
}

impl Extremes {
    // Running extremes with one row more.
    fn wider(self, row: Extremes) -> Self
        requires { Readings self × Readings row }
        ensures { result ≡ wider self row }
    {
        match (self, row) {
            (Extremes::Any, other) | (other, Extremes::Any) => other,
            (
                Extremes::Known { least, greatest },
                Extremes::Known {
                    least: l,
                    greatest: g,
                },
            ) => Extremes::Known {
                least: least.min(l),
                greatest: greatest.max(g),
            },
            _ => Extremes::Unknown,
        }
    }
}

impl Figures {
    // One row more: sum plus sum, count plus count, and the wider extremes.
    pub fn more(self, row: Figures) -> Self
        requires { Bounded self.sums × Bounded row.sums × (self.sums.count + row.sums.count ≤ most) × Readings self.extremes × Readings row.extremes }
        ensures { result ≡ figures.more self row }
    {
        Figures {
            sums: self.sums.plus(row.sums),
            extremes: self.extremes.wider(row.extremes),
        }
    }
}
