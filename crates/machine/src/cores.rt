// A core seals return addresses and checks seals.
ghost use Rattle.std.specs.Prelude.{◌≡◌, ℕ};
ghost use Rattle.machine.specs.Cores.{CoresLawful, key_number_of, plain, seal_of, sealing};
ghost use Rattle.machine.specs.Machine.{Core as CoreMeaning, LawfulCore};
ghost use Rattle.std.proofs.Common.{rules};

use a64::inst::Key;

// A modifier is a number here, so key and modifier make no `ApiKey`.
pub trait Core {
    // What the core means: seal, check, and whether it has checked returns.
    ghost meaning: { Self → CoreMeaning };

    fn seal(&self, key: Key, modifier: u64, a: u64) -> u64
        ensures { result ≡ (meaning self.now).seal key modifier a };

    fn check(&self, key: Key, modifier: u64, s: u64) -> u64
        ensures { result ≡ (meaning self.now).check key modifier s };

    fn checked_returns(&self) -> bool
        ensures { result ≡ (meaning self.now).checked };

    ghost lawful: { (c : Self) → LawfulCore (meaning c) };
}

// Hands numbers back, and has no checked returns.
#[derive(Clone, Copy)]
pub struct PlainCore;

impl Core for PlainCore {
    ghost meaning = { λ _. plain };

    ghost lawful = { Prim.search rules };

    fn seal(&self, _key: Key, _modifier: u64, a: u64) -> u64 {
        a
    }

    fn check(&self, _key: Key, _modifier: u64, s: u64) -> u64 {
        s
    }

    fn checked_returns(&self) -> bool {
        false
    }
}

// Seals in the bits above an address, and has checked returns.
#[derive(Clone, Copy)]
pub struct SealingCore;

impl Core for SealingCore {
    ghost meaning = { λ _. sealing };

    ghost lawful = { Prim.search rules };

    fn seal(&self, key: Key, modifier: u64, a: u64) -> u64 {
        sealed(key, modifier, a)
    }

    fn check(&self, key: Key, modifier: u64, s: u64) -> u64 {
        let a = s % 0x1_0000_0000_0000;
        if s == sealed(key, modifier, a) {
            a
        } else {
            a + 0x8000_0000_0000_0000
        }
    }

    fn checked_returns(&self) -> bool {
        true
    }
}

// The key as a number as wide as the seal.
fn key_number(key: Key) -> u64
    ensures { result ≡ key_number_of key }
{
    key as u64
}

// The low 48 bits, and above them 15 bits of the modifier, the address and the key.
fn sealed(key: Key, modifier: u64, a: u64) -> u64
    ensures { result ≡ seal_of key modifier a }
{
    let low = a % 0x1_0000_0000_0000;
    low + 0x1_0000_0000_0000 * ((modifier / 16 + low + key_number(key)) % 32768)
}

// Every core keeps the law.
pub fn core_lawful<C: Core>(core: &C) -> u8
    ensures { LawfulCore (C.Core.meaning core.now) }
{
    0
}

// Both cores keep the law, and seal as the definitions say.
pub fn cores_lawful() -> u8
    ensures { CoresLawful }
{
    0
}
