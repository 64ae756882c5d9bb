// Which registers of a load or a store clash.
ghost use Rattle.a64.specs.Words.{overlaps as over, pair_clash_of, single_clash_of};
ghost use Rattle.std.specs.Prelude.{◌≡◌};

use a64::inst::*;

// The base is no SP and is the register `rt`.
pub fn overlaps(rn: Reg, rt: Reg) -> bool
    ensures { result ≡ over rn rt }
{
    rn != Reg::SP && rt == rn
}

pub fn pair_clash(dir: Dir, class: PairClass, mode: PairMode, rt: Reg, rt2: Reg, rn: Reg) -> bool
    ensures { result ≡ pair_clash_of dir class mode rt rt2 rn }
{
    let twice = dir == Dir::Load && rt == rt2;
    let writes = class == PairClass::X && mode != PairMode::Offset;
    twice || (writes && (overlaps(rn, rt) || overlaps(rn, rt2)))
}

pub fn single_clash(class: Class, rt: Reg, rn: Reg) -> bool
    ensures { result ≡ single_clash_of class rt rn }
{
    class == Class::X && overlaps(rn, rt)
}
