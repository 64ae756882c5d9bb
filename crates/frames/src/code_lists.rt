// Lists of register codes as numbers and as names.
use crate::register::Register;
use codes::list::CodeList;
use std::fmt;

// Numbers joined by commas, or `-`.
#[derive(Clone, Copy)]
pub struct Codes<'a>(pub &'a CodeList);

impl fmt::Display for Codes<'_> {
    fn fmt<W: fmt::Write>(&self, f: &mut fmt::Formatter<W>) -> fmt::Result {
        let codes = self.0.as_slice();
        if codes.is_empty() {
            return f.write_str("-");
        }
        for (i, code) in codes.iter().enumerate() {
            if i > 0 {
                f.write_str(",")?;
            }
            write!(f, "{code}")?;
        }
        Ok(())
    }
}

// Register names joined by blanks, or `nothing`.
#[derive(Clone, Copy)]
pub struct Names<'a>(pub &'a CodeList);

impl fmt::Display for Names<'_> {
    fn fmt<W: fmt::Write>(&self, f: &mut fmt::Formatter<W>) -> fmt::Result {
        let codes = self.0.as_slice();
        if codes.is_empty() {
            return f.write_str("saves nothing");
        }
        f.write_str("saves")?;
        for code in codes {
            let name = Register::v(*code);
            write!(f, " {name}")?;
        }
        Ok(())
    }
}
