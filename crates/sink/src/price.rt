// Prices: a number of units from 1 to 16, fixed by a type.
ghost use Rattle.std.specs.Prelude.{◌≡◌, ℕ, ◌≤◌};

pub trait Price {
    // The number of units.
    ghost units: { ℕ };

    fn value(&self) -> u32
        ensures { (result ≡ units) × (1 ≤ result) × (result ≤ 16) };
}

// N units; there is such a value only where N is from 1 to 16.
#[derive(Clone, Copy)]
pub struct Units<const N: u32> {
    ghost low: { 1 ≤ N },
    ghost high: { N ≤ 16 },
}

impl<const N: u32> Price for Units<N> {
    ghost units = { N };

    fn value(&self) -> u32
        ensures { (result ≡ N) × (1 ≤ result) × (result ≤ 16) }
    {
        N
    }
}

// A price that can be named by its type alone. One impl for each price in use: for any N there would have to be a bound on N.
pub trait Fixed: Price + Sized {
    const VALUE: Self;
}

impl Fixed for Units<1> {
    const VALUE: Units<1> = Units {};
}

impl Fixed for Units<5> {
    const VALUE: Units<5> = Units {};
}

impl Fixed for Units<8> {
    const VALUE: Units<8> = Units {};
}
