// A sheet that owns its codes, as a program reads it from text.
#![tactic(auto)]

ghost use Rattle.std.specs.Prelude.{◌≡◌, ◌∷◌, []};

use sheet::types::{Sheet, Sizes};

// Apart from `Sheet`, which lends the codes.
#[derive(Drop)]
pub struct OwnedSheet {
    pub number: u32,
    pub call_conv: u32,
    pub function_calls: u32,
    pub flags: u32,
    pub sizes: Sizes,
    pub codes: Vec<u8>,
}

// The sizes in the order of a sheet's words. No `From`: the order is that of a text.
pub fn sizes_of(n: [u32; 6]) -> Sizes
    ensures { n ≡ result.incoming ∷ result.tail ∷ result.stackslots ∷ result.fixed ∷ result.outgoing ∷ result.guard ∷ [] }
{
    let [incoming, tail, stackslots, fixed, outgoing, guard] = n;
    Sizes {
        incoming,
        tail,
        stackslots,
        fixed,
        outgoing,
        guard,
    }
}

impl OwnedSheet {
    // The sheet that these ten numbers and these codes write.
    pub fn of_numbers(n: [u32; 10], codes: Vec<u8>) -> OwnedSheet
        ensures numbers { n ≡ result.number ∷ result.call_conv ∷ result.function_calls ∷ result.flags ∷ result.sizes.incoming ∷ result.sizes.tail ∷ result.sizes.stackslots ∷ result.sizes.fixed ∷ result.sizes.outgoing ∷ result.sizes.guard ∷ [] }
        ensures codes { result.codes ≡ codes }
    {
        let [
            number,
            call_conv,
            function_calls,
            flags,
            incoming,
            tail,
            stackslots,
            fixed,
            outgoing,
            guard,
        ] = n;
        OwnedSheet {
            number,
            call_conv,
            function_calls,
            flags,
            sizes: sizes_of([incoming, tail, stackslots, fixed, outgoing, guard]),
            codes,
        }
    }

    // The same sheet, with the codes lent.
    pub fn sheet(&self) -> Sheet<'_>
        ensures number { result.number ≡ self.now.number }
        ensures call_conv { result.call_conv ≡ self.now.call_conv }
        ensures function_calls { result.function_calls ≡ self.now.function_calls }
        ensures flags { result.flags ≡ self.now.flags }
        ensures sizes { result.sizes ≡ self.now.sizes }
        ensures codes { result.clobbers.now ≡ self.now.codes.items }
    {
        Sheet {
            number: self.number,
            call_conv: self.call_conv,
            function_calls: self.function_calls,
            flags: self.flags,
            sizes: self.sizes,
            clobbers: &self.codes,
        }
    }
}
