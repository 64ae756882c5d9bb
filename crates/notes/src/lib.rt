// Unwind notes, and the three words that stand for one.
#![tactic(auto)]

ghost use Rattle.std.specs.Prelude.{◌≡◌, ℕ, ◌<◌};
ghost use Rattle.notes.specs.Notes.{NoteOf, WordsOf, inst_from_of, note_from_of, parts_of};

#[derive(Clone, Copy)]
pub enum UnwindInst {
    // FP and LR were pushed, and the caller's SP lies this far up.
    PushFrameRegs {
        offset_upward_to_caller_sp: u32,
    },
    // FP was set. The caller's SP lies so far up from it, the clobber area so far down.
    DefineNewFrame {
        offset_upward_to_caller_sp: u32,
        offset_downward_to_clobbers: u32,
    },
    // SP went down.
    StackAlloc {
        size: u32,
    },
    // The register with this code was saved in the clobber area: N for xN, 64 + N for vN.
    SaveReg {
        clobber_offset: u32,
        reg: u8,
    },
    // Whether return addresses are sealed from here on.
    Aarch64SetPointerAuth {
        return_addresses: bool,
    },
}

// A note with its place: the number of instructions before it.
#[derive(Clone, Copy)]
pub struct Note {
    pub place: u32,
    pub inst: UnwindInst,
}

// The number of a note's case in the format, and its two words.
#[derive(Clone, Copy, PartialEq, Eq)]
pub struct Parts {
    pub kind: u32,
    pub a: u32,
    pub b: u32,
}

// A note's place has more than 24 bits, so that no three words stand for it.
#[derive(Clone, Copy, Debug)]
pub struct FarPlace;

// No note has the three words.
#[derive(Clone, Copy, Debug)]
pub struct NoNote;

// The case's number with its values, unused words 0.
impl From<UnwindInst> for Parts {
    ghost from_gives = { λ x parts. parts ≡ parts_of x };

    fn from(inst: UnwindInst) -> Parts
        ensures value { result ≡ parts_of inst }
        ensures back { (result.kind < 256) × (inst_from_of result.kind result.a result.b ≡ inst) }
    {
        let (kind, a, b) = match inst {
            UnwindInst::PushFrameRegs {
                offset_upward_to_caller_sp,
            } => (0, offset_upward_to_caller_sp, 0),
            UnwindInst::DefineNewFrame {
                offset_upward_to_caller_sp,
                offset_downward_to_clobbers,
            } => (1, offset_upward_to_caller_sp, offset_downward_to_clobbers),
            UnwindInst::StackAlloc { size } => (2, size, 0),
            UnwindInst::SaveReg {
                clobber_offset,
                reg,
            } => (3, clobber_offset, u32::from(reg)),
            UnwindInst::Aarch64SetPointerAuth { return_addresses } => {
                (4, u32::from(return_addresses), 0)
            }
        };
        Parts { kind, a, b }
    }
}

// The three words of a note, if its place has no more than 24 bits.
impl TryFrom<Note> for [u32; 3] {
    type Error = FarPlace;

    ghost try_from_gives = { WordsOf };

    fn try_from(note: Note) -> Result<[u32; 3], FarPlace> {
        if note.place >= 0x1000000 {
            return Err(FarPlace);
        }
        let parts = Parts::from(note.inst);
        Ok([parts.kind + 256 * note.place, parts.a, parts.b])
    }
}

// The note with these three words, if there is one.
impl TryFrom<[u32; 3]> for Note {
    type Error = NoNote;

    ghost try_from_gives = { NoteOf };

    fn try_from(words: [u32; 3]) -> Result<Note, NoNote> {
        let [first, a, b] = words;
        let note = note_from(first, a, b);
        let kind = first % 256;
        if Parts::from(note.inst) == (Parts { kind, a, b }) {
            Ok(note)
        } else {
            Err(NoNote)
        }
    }
}

// The case with this number, from its two words; any other number is read as the last case, so no `From`.
pub fn inst_from(kind: u32, a: u32, b: u32) -> UnwindInst
    ensures { result ≡ inst_from_of kind a b }
{
    match kind {
        0 => UnwindInst::PushFrameRegs {
            offset_upward_to_caller_sp: a,
        },
        1 => UnwindInst::DefineNewFrame {
            offset_upward_to_caller_sp: a,
            offset_downward_to_clobbers: b,
        },
        2 => UnwindInst::StackAlloc { size: a },
        3 => UnwindInst::SaveReg {
            clobber_offset: a,
            reg: (b % 256) as u8,
        },
        _ => UnwindInst::Aarch64SetPointerAuth {
            return_addresses: a != 0,
        },
    }
}

// The note that three words are read as.
pub fn note_from(first: u32, a: u32, b: u32) -> Note
    ensures { result ≡ note_from_of first a b }
{
    Note {
        place: first / 256,
        inst: inst_from(first % 256, a, b),
    }
}
