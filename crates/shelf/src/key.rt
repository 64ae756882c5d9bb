// A function's number with its slot. Keys go by their numbers.
ghost use Rattle.std.specs.Prelude.{◌≡◌, ◌↔◌, IsTrue};

// Two keys are equal where their numbers are, as their order has it.
#[derive(Clone, Copy)]
#[derive_where(PartialEq, Eq, PartialOrd, Ord)]
pub struct Key {
    pub number: u32,
    #[derive_where(skip(EqHashOrd))]
    pub slot: usize,
}

impl Key {
    // Whether number and slot are both the same: `==` goes by the number alone.
    pub fn is_same(&self, other: &Key) -> bool
        ensures { IsTrue result ↔ (self.now ≡ other.now) }
    {
        self.number == other.number && self.slot == other.slot
    }
}
