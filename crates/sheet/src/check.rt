// From the raw sheet to a checked one, or the first refusal.
ghost use Rattle.std.specs.Prelude.{◌≡◌, ◌<◌, Bool, true, []};
ghost use Rattle.refusal.specs.Told.{Answers, first};
ghost use Rattle.codes.specs.Items.{items};
ghost use Rattle.sheet.specs.Accepted.{Accepted};
ghost use Rattle.sheet.specs.Checks.{plain, plain_read};
ghost use Rattle.sheet.specs.Plain.{plain_of};
ghost use Rattle.sheet.specs.Refused.{uneven, range_rows, bad_sizes_of, bad_tail_of, winch_seal_of, bad_guard_of, unfit_guard, late_rows, plain_rows, refused};
ghost use Rattle.sheet.specs.Saved.{pairs};

use crate::checked::CheckedSheet;
use crate::clobbers::check_codes;
use crate::key::select_api_key;
use crate::read::ReadSheet;
use crate::refused::refusal;
use crate::types::{CallConv, Flags, FunctionCalls, Sheet};
use a64::imm::Imm12;
use codes::list::CodeList;
use refusal::{Cause, Refusal};

// The largest sum of the incoming, tail, fixed and outgoing sizes.
pub const LARGEST_SUM: u64 = 1 << 30;

// Compact unwinding saves registers by pairs.
pub fn is_paired(call_conv: CallConv, flags: Flags) -> bool
    ensures { result ≡ pairs call_conv flags }
{
    call_conv == CallConv::AppleAarch64 && flags.enable_compact_unwind_abi
}

// No multiple of 16.
fn is_uneven(n: u32) -> bool
    ensures { result ≡ uneven n }
{
    n % 16 != 0
}

// The guard is 0, no multiple of 16, or no immediate.
pub fn is_bad_guard(guard: u32) -> bool
    ensures { result ≡ unfit_guard guard }
{
    guard == 0 || is_uneven(guard) || Imm12::maybe_from_u64(guard as u64).is_none()
}

impl ReadSheet<'_> {
    // A size is no multiple of 16, or their sum is too large.
    fn bad_sizes(&self) -> bool
        ensures { result ≡ bad_sizes_of self.now.sizes }
    {
        let z = self.sizes;
        is_uneven(z.incoming)
            || is_uneven(z.tail)
            || is_uneven(z.fixed)
            || is_uneven(z.outgoing)
            || z.incoming as u64 + z.tail as u64 + z.fixed as u64 + z.outgoing as u64 > LARGEST_SUM
    }

    // The tail is below incoming, or outside `Tail` another size.
    fn bad_tail(&self) -> bool
        ensures { result ≡ bad_tail_of self.now.call_conv self.now.sizes }
    {
        let z = self.sizes;
        z.tail < z.incoming || (self.call_conv != CallConv::Tail && z.tail != z.incoming)
    }

    // Winch gives incoming bytes back before the seal is checked. With incoming above 0 there is a setup area.
    fn winch_seal(&self) -> bool
        ensures { (setup : Bool) → (0 < self.now.sizes.incoming → setup ≡ true) → result ≡ winch_seal_of self.now.call_conv self.now.flags self.now.sizes setup }
    {
        self.call_conv == CallConv::Winch
            && self.sizes.incoming > 0
            && select_api_key(self.flags, self.call_conv, true).is_some()
    }

    // Probes are on, and the guard cannot serve them.
    fn bad_guard(&self) -> bool
        ensures { result ≡ bad_guard_of self.now.flags self.now.sizes }
    {
        self.flags.inline_probes && is_bad_guard(self.sizes.guard)
    }

    // The rows behind the codes.
    fn check_late(&self) -> Result<(), Refusal>
        ensures { (setup : Bool) → (0 < self.now.sizes.incoming → setup ≡ true) → Answers (first (late_rows self.now.call_conv self.now.flags self.now.sizes setup)) (λ _. Unit {0}) (Unit {0}) result }
    {
        if self.bad_sizes() {
            return Err(refusal(Cause::Sizes));
        }
        if self.bad_tail() {
            return Err(refusal(Cause::TailSize));
        }
        if self.winch_seal() {
            return Err(refusal(Cause::WinchSeal));
        }
        if is_paired(self.call_conv, self.flags) && self.flags.enable_pinned_reg {
            return Err(refusal(Cause::CompactPinned));
        }
        if self.bad_guard() {
            return Err(refusal(Cause::Guard));
        }
        Ok(())
    }

    // The sheet's clobbers, where no row applies.
    fn check_rows(&self) -> Result<CodeList, Refusal>
        ensures { Answers (first (plain_rows (plain_read self.now))) (λ l. items l ≡ self.now.clobbers.now) (Unit {0}) result }
    {
        if self.flags.dynamic_vector {
            return Err(refusal(Cause::DynamicVector));
        }
        let clobbers = check_codes(self.flags.enable_pinned_reg, self.clobbers)?;
        self.check_late()?;
        Ok(clobbers)
    }
}

// The sheet with its numbers read.
fn read_numbers(sheet: Sheet<'_>) -> Result<ReadSheet<'_>, Refusal>
    ensures { Answers (first (range_rows sheet.entry)) (λ r. plain_read r ≡ plain_of sheet.entry) (Unit {0}) result }
{
    Ok(ReadSheet {
        number: sheet.number,
        call_conv: CallConv::try_from(sheet.call_conv)?,
        function_calls: FunctionCalls::try_from(sheet.function_calls)?,
        flags: Flags::try_from(sheet.flags)?,
        sizes: sheet.sizes,
        clobbers: sheet.clobbers,
    })
}

// A checked sheet, or the first refusal that applies.
pub fn check(sheet: Sheet<'_>) -> Result<CheckedSheet, Refusal>
    ensures { Answers (refused sheet.entry) (λ c. (plain c ≡ plain_of sheet.entry) × Accepted (plain c)) (Unit {0}) result }
{
    let read = read_numbers(sheet)?;
    let clobbers = read.check_rows()?;
    Ok(CheckedSheet {
        number: read.number,
        call_conv: read.call_conv,
        function_calls: read.function_calls,
        flags: read.flags,
        sizes: read.sizes,
        clobbers,
    })
}
