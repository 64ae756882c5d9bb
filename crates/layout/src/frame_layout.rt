// The struct alone: its ghost fields cite specs that do not name it.
ghost use Rattle.std.specs.Prelude.{◌≡◌, length};
ghost use Rattle.codes.specs.Items.{items};
ghost use Rattle.sheet.specs.Checks.{plain};
ghost use Rattle.sheet.specs.Saved.{saved_ints_of, saved_codes, clobber_size_of, setup_size};

use codes::list::CodeList;
use sheet::checked::CheckedSheet;

// The areas of a frame. No layout can exist whose list or sizes are not those of its sheet.
#[derive(Clone, Copy)]
pub struct FrameLayout {
    pub sheet: CheckedSheet,
    pub clobbered_callee_saves: CodeList,
    pub int_saves: usize,
    pub clobber_size: u32,
    pub setup_area_size: u32,
    ghost saves_rule: { items clobbered_callee_saves ≡ saved_codes (plain sheet) },
    ghost ints_rule: { int_saves ≡ length (saved_ints_of (plain sheet)) },
    ghost clobber_rule: { clobber_size ≡ clobber_size_of (plain sheet) },
    ghost setup_rule: { setup_area_size ≡ setup_size (plain sheet) },
}
