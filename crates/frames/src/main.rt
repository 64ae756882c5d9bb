// Does a job from standard input, a command to a line, and prints what each did.
#![tactic(auto)]

mod assembler;
mod books;
mod code;
mod code_lists;
mod command;
mod note_words;
mod register;
mod sheet_words;
mod show;
mod stop;

use crate::code_lists::{Codes, Names};
use a64::inst::{Inst, Reg};
use asm::Asm;
use books::{Opened, Part};
use code::{write_frame, write_piece};
use command::{Command, Mistake, read_command};
use layout::{FrameLayout, compute_frame_layout};
use owned_sheet::OwnedSheet;
use refusal::Refusal;
use sheet::check::check;
use std::alloc::Global;
use std::io;
use std::io::{BufWriter, Read, Write};
use stop::Stop;
use text::lines::Lines;

fn decode(out: &mut impl Write, w: u32) -> io::Result<()> {
    match codec::decode(w) {
        Inst::Other(_) => writeln!(out, "reads other"),
        i => {
            let text = Asm(i);
            writeln!(out, "reads {text}")
        }
    }
}

fn refused(out: &mut impl Write, r: Refusal) -> io::Result<()> {
    let number = r.cause.number();
    let layer = r.layer.number();
    let place = r.place;
    let why = r.cause;
    writeln!(out, "refused {number} layer {layer} place {place} ; {why}")
}

fn laid_out(out: &mut impl Write, l: &FrameLayout) -> io::Result<()> {
    let setup = l.setup_area_size;
    let clobber = l.clobber_size;
    let saved = Codes(&l.clobbered_callee_saves);
    let names = Names(&l.clobbered_callee_saves);
    write!(
        out,
        "layout setup {setup} clobber {clobber} saved {saved} ; {names} ; "
    )?;
    picture(out, l)
}

// The areas of the frame, from SP in the body up.
pub(crate) fn picture(out: &mut impl Write, l: &FrameLayout) -> io::Result<()> {
    let z = l.sheet.sizes;
    let outgoing = z.outgoing;
    let fixed = z.fixed;
    let clobber = l.clobber_size;
    let setup = l.setup_area_size;
    let incoming = z.incoming;
    write!(
        out,
        "SP | outgoing {outgoing} | fixed {fixed} | saves {clobber} | FP LR {setup} |"
    )?;
    if z.tail > incoming {
        let more = z.tail - incoming;
        write!(out, " tail call {more} |")?;
    }
    writeln!(out, " entry SP | incoming {incoming}")
}

fn lay_out(out: &mut impl Write, sheet: &OwnedSheet) -> Result<(), Stop> {
    laid_out(out, &compute_frame_layout(check(sheet.sheet())?))?;
    Ok(())
}

fn whole_frame(heap: Global, out: &mut impl Write, sheet: &OwnedSheet) -> Result<(), Stop> {
    let l = compute_frame_layout(check(sheet.sheet())?);
    laid_out(out, &l)?;
    write_frame(heap, out, &l)
}

// What a command that needs no book asks for.
fn answer(heap: Global, out: &mut impl Write, c: &Command) -> Result<(), Stop> {
    match c {
        Command::Decode(w) => {
            decode(out, *w)?;
            Ok(())
        }
        Command::Layout(sheet) => lay_out(out, sheet),
        Command::Frame(sheet) => whole_frame(heap, out, sheet),
        Command::Adjust(amount) => write_piece(heap, out, |emitter, sink| {
            emitter.gen_sp_reg_adjust(*amount, sink)
        }),
        Command::Probes(size, guard) => write_piece(heap, out, |emitter, sink| {
            emitter.gen_inline_probestack(*size, *guard, sink)
        }),
        Command::Constant(value) => write_piece(heap, out, |emitter, sink| {
            emitter.load_constant(Reg::SPILLTMP, *value, sink)
        }),
        _ => Ok(()),
    }
}

// Prints the refusal where there is one.
pub(crate) fn or_refused(out: &mut impl Write, done: Result<(), Stop>) -> io::Result<()> {
    match done {
        Ok(()) => Ok(()),
        Err(Stop::Refused(r)) => refused(out, r),
        Err(Stop::Io(e)) => Err(e),
    }
}

// A command that needs no book.
pub(crate) fn perform(heap: Global, out: &mut impl Write, c: &Command) -> io::Result<()> {
    let done = answer(heap, out, c);
    or_refused(out, done)
}

pub(crate) fn mistaken(out: &mut impl Write, number: u64, why: Mistake) -> io::Result<()> {
    writeln!(out, "error line {number} ; {why}")
}

// Reads the job line by line. What comes behind a new sink is kept until the next one, and then played whole.
fn job(heap: Global, out: &mut impl Write, input: &[u8]) -> io::Result<()> {
    if input.is_empty() {
        mistaken(out, 1, Mistake::NoInput)?;
    }
    let mut part = Part::new(heap, None);
    for (number, line) in (1..u64::MAX).zip(Lines::new(input)) {
        match read_command(heap, line) {
            Ok(None) => {}
            Ok(Some(Command::Open(kind, length))) => {
                part.play_out(heap, out)?;
                part = Part::new(
                    heap,
                    Some(Opened {
                        number,
                        kind,
                        length,
                    }),
                );
            }
            Ok(Some(c)) => part.keep(number, Ok(c))?,
            Err(why) => part.keep(number, Err(why))?,
        }
    }
    part.play_out(heap, out)
}

fn main(rt: HostRuntime) -> io::Result<()> {
    let mut input = Vec::new(rt.alloc());
    rt.stdin().read_to_end(&mut input)?;
    let mut out = BufWriter::new(rt.alloc(), rt.stdout())?;
    job(rt.alloc(), &mut out, &input)?;
    out.flush()
}
