// A whole book as text that an assembler takes, its notes as unwind directives.
use crate::register::Register;
use crate::show::{insts_of, notes_of};
use a64::inst::Key;
use asm::Asm;
use book::book::Book;
use layout::compute_frame_layout;
use notes::UnwindInst;
use sheet::checked::CheckedSheet;
use sheet::key::select_api_key;
use shelf::entry::Entry;
use shelf::shelf::FUNCTION_COUNT;
use sink::sink::Sink;
use std::io;
use std::io::Write;

// How the notes so far tell the caller's SP, which unwinders call the CFA.
#[derive(Clone, Copy)]
enum Cfa {
    // It lies so far above SP.
    BySp(u32),
    // FP tells it, and saves begin so far below it.
    ByFp(u32),
}

impl Cfa {
    // After one more note.
    fn after(self, note: UnwindInst) -> Cfa {
        match note {
            UnwindInst::PushFrameRegs {
                offset_upward_to_caller_sp,
            } => Cfa::BySp(offset_upward_to_caller_sp),
            UnwindInst::DefineNewFrame {
                offset_upward_to_caller_sp,
                offset_downward_to_clobbers,
            } => Cfa::ByFp(offset_upward_to_caller_sp.saturating_add(offset_downward_to_clobbers)),
            UnwindInst::StackAlloc { size } => match self {
                Cfa::BySp(up) => Cfa::BySp(up.saturating_add(size)),
                Cfa::ByFp(_) => self,
            },
            _ => self,
        }
    }
}

// FP lies lowest, LR 8 above it.
fn frame_record(out: &mut impl Write, up: u32) -> io::Result<()> {
    let lr = up.saturating_sub(8);
    writeln!(
        out,
        "    .cfi_offset x29, -{up}\n    .cfi_offset x30, -{lr}"
    )
}

fn allocated(out: &mut impl Write, cfa: Cfa, size: u32) -> io::Result<()> {
    match cfa {
        Cfa::BySp(up) => writeln!(out, "    .cfi_def_cfa_offset {up}"),
        Cfa::ByFp(_) => writeln!(out, "    // sp down {size}"),
    }
}

fn saved(out: &mut impl Write, cfa: Cfa, up: u32, reg: u8) -> io::Result<()> {
    let Cfa::ByFp(down) = cfa else {
        return writeln!(out, "    // a register is saved, but no frame is defined");
    };
    let at = i64::from(up) - i64::from(down);
    let name = Register::d(reg);
    writeln!(out, "    .cfi_offset {name}, {at}")
}

fn sealed(out: &mut impl Write, on: bool) -> io::Result<()> {
    if on {
        writeln!(out, "    .cfi_negate_ra_state")
    } else {
        writeln!(out, "    // return addresses are not sealed")
    }
}

// A note, with what is known after it.
fn directive(out: &mut impl Write, cfa: Cfa, note: UnwindInst) -> io::Result<()> {
    match note {
        UnwindInst::PushFrameRegs {
            offset_upward_to_caller_sp,
        } => {
            let up = offset_upward_to_caller_sp;
            writeln!(out, "    .cfi_def_cfa_offset {up}")?;
            frame_record(out, up)
        }
        UnwindInst::DefineNewFrame {
            offset_upward_to_caller_sp,
            ..
        } => {
            let up = offset_upward_to_caller_sp;
            writeln!(out, "    .cfi_def_cfa x29, {up}")?;
            frame_record(out, up)
        }
        UnwindInst::StackAlloc { size } => allocated(out, cfa, size),
        UnwindInst::SaveReg {
            clobber_offset,
            reg,
        } => saved(out, cfa, clobber_offset, reg),
        UnwindInst::Aarch64SetPointerAuth { return_addresses } => sealed(out, return_addresses),
    }
}

// The notes of a function that stand at a place; what is known after them. The book and the entry: a copied entry is no part of the book.
fn directives_at<S: Sink>(
    out: &mut impl Write,
    book: &Book<S>,
    e: &Entry,
    place: usize,
    before: Cfa,
) -> io::Result<Cfa> {
    let mut cfa = before;
    for at in notes_of(e) {
        if let Ok(note) = book.note_at(at)
            && note.place as usize == place
        {
            cfa = cfa.after(note.inst);
            directive(out, cfa, note.inst)?;
        }
    }
    Ok(cfa)
}

// The instructions of a function, each behind the notes that stand before it.
fn code<S: Sink>(out: &mut impl Write, book: &Book<S>, e: &Entry) -> io::Result<()> {
    let mut cfa = Cfa::BySp(0);
    for place in insts_of(e) {
        cfa = directives_at(out, book, e, place, cfa)?;
        if let Ok(i) = book.inst_at(place) {
            let text = Asm(i);
            writeln!(out, "    {text}")?;
        }
    }
    Ok(())
}

// Whether return addresses are sealed with the key B.
fn with_key_b(sheet: CheckedSheet) -> bool {
    let sets_up = compute_frame_layout(sheet).setup_area_size > 0;
    select_api_key(sheet.flags, sheet.call_conv, sets_up).is_some_and(|k| matches!(k.key, Key::B))
}

// What stands before the first instruction.
fn head(out: &mut impl Write, sheet: CheckedSheet) -> io::Result<()> {
    let n = sheet.number;
    writeln!(
        out,
        "\n    .p2align 2\n    .globl f{n}\n    .type f{n}, %function\nf{n}:\n    .cfi_startproc"
    )?;
    if !sheet.flags.unwind_info {
        writeln!(out, "    // unwind notes are off")
    } else if with_key_b(sheet) {
        writeln!(out, "    .cfi_b_key_frame")
    } else {
        Ok(())
    }
}

fn function<S: Sink>(out: &mut impl Write, book: &Book<S>, e: &Entry) -> io::Result<()> {
    let n = e.sheet.number;
    head(out, e.sheet)?;
    code(out, book, e)?;
    writeln!(out, "    .cfi_endproc\n    .size f{n}, .-f{n}")
}

// The functions by slot, with a first and a last line that tell where the text begins and ends.
pub fn assembler<S: Sink>(out: &mut impl Write, book: &Book<S>) -> io::Result<()> {
    let count = (0..FUNCTION_COUNT)
        .filter(|slot| book.entry_at(*slot).is_some())
        .count();
    writeln!(
        out,
        "// book of {count} functions\n    .arch armv8.5-a+pauth\n    .text"
    )?;
    for e in (0..FUNCTION_COUNT).filter_map(|slot| book.entry_at(slot)) {
        function(out, book, &e)?;
    }
    writeln!(out, "// end of book")
}
