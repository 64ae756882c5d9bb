// The clobber codes, one after the other.
ghost use Rattle.std.specs.Prelude.{◌≡◌, []};
ghost use Rattle.refusal.specs.Told.{Answers, first};
ghost use Rattle.sheet.specs.Codes.{allowed, code_rows};
ghost use Rattle.codes.specs.Items.{items};

use crate::refused::refusal_at;
use codes::list::CodeList;
use codes::marks::Marks;
use refusal::{Cause, Refusal};

fn is_allowed(pinned: bool, c: u8) -> bool
    ensures { result ≡ allowed pinned c }
{
    c <= 15 || (c >= 19 && c <= 28 && !(pinned && c == 21)) || (c >= 64 && c <= 95)
}

// The codes as a list of their own, or the first refusal.
pub(crate) fn check_codes(pinned: bool, codes: &[u8]) -> Result<CodeList, Refusal>
    ensures { Answers (first (code_rows pinned [] 0 codes.now)) (λ l. items l ≡ codes.now) (Unit {0}) result }
{
    let mut marks = Marks::new();
    let mut list = CodeList::new();
    for (i, c) in codes.iter().enumerate() {
        let code = *c;
        if !is_allowed(pinned, code) {
            return Err(refusal_at(Cause::CodeNotAllowed, i));
        }
        if marks.has(code) {
            return Err(refusal_at(Cause::CodeRepeated, i));
        }
        marks.add(code);
        // There is room: each register is seen once.
        let _ = list.push(code);
    }
    Ok(list)
}
