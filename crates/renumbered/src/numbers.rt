// The numbers that the values of a component have now.
ghost use Rattle.std.specs.Prelude.{◌≡◌, ℕ, ◌<◌, slice_index, slice_set};
ghost use Rattle.component.specs.Exchange.{swap};
ghost use Rattle.renumbered.specs.Numbering.{number_in, Undoes};

// The most values that an admitted component has. Numbers from here on stay
// as they are.
pub const TABLE_SIZE: usize = 2048;

// `numbers` has the number that each inner value has now, and `origins` the
// inner value that has each number: two tables, so that both are found at once, and
// arrays, since the layer uses no heap.
#[derive(Clone, Copy)]
pub struct Numbers {
    numbers: [u16; TABLE_SIZE],
    origins: [u16; TABLE_SIZE],
    ghost back: { Undoes origins numbers },
    ghost forth: { Undoes numbers origins },
}

// The number that a value has at first: its own.
fn first_number(v: usize) -> u16
    requires { v < 2048 }
    ensures { result ≡ v }
{
    v as u16
}

// A table that leaves every number as it is.
fn own_numbers() -> [u16; TABLE_SIZE]
    ensures { (v : ℕ) → number_in result v ≡ v }
{
    std::array::from_fn(first_number)
}

// Exchanges two entries of a table.
fn exchange_entries(table: &mut [u16; TABLE_SIZE], i: usize, j: usize)
    requires first { i < 2048 }
    requires second { j < 2048 }
    ensures { table.new ≡ slice_set (slice_set table.old i (slice_index table.old j)) j (slice_index table.old i) }
{
    table.swap(i, j);
}

impl Numbers {
    // Every value has its own number.
    pub fn new() -> Numbers
        ensures numbers { (v : ℕ) → number_in result.numbers v ≡ v }
        ensures origins { (n : ℕ) → number_in result.origins n ≡ n }
    {
        Numbers {
            numbers: own_numbers(),
            origins: own_numbers(),
        }
    }

    // The number that the inner value `v` has now.
    pub fn number_of(&self, v: u16) -> u16
        ensures { result ≡ number_in self.now.numbers v }
    {
        self.numbers.get(v as usize).copied().unwrap_or(v)
    }

    // The inner value that has the number `n` now.
    pub fn origin_of(&self, n: usize) -> usize
        ensures { result ≡ number_in self.now.origins n }
    {
        self.origins.get(n).map_or(n, |v| *v as usize)
    }

    // Exchanges the numbers `a` and `b`, whichever values have them.
    pub fn exchange(&mut self, a: u16, b: u16)
        requires first { a < 2048 }
        requires second { b < 2048 }
        ensures numbers { (v : ℕ) → number_in self.new.numbers v ≡ swap a b (number_in self.old.numbers v) }
        ensures origins { (n : ℕ) → number_in self.new.origins n ≡ number_in self.old.origins (swap a b n) }
    {
        let one = self.origins[a as usize];
        let other = self.origins[b as usize];
        exchange_entries(&mut self.numbers, one as usize, other as usize);
        exchange_entries(&mut self.origins, a as usize, b as usize);
    }
}
