//! The first line of a file.

ghost use Rattle.std.specs.Prelude.{◌≡◌, ℕ, IfOk, OnOk, IfErr, IsErrOf};
ghost use Rattle.std.specs.Fmt.{decimal};
ghost use Rattle.ft_items.specs.Lines.{first_line};
ghost use Rattle.ft_items.specs.Texts.{NumberFits};
ghost use Rattle.ft_lines.specs.declared.fault.Fault.TheVariants.{Form};
ghost use Rattle.ft_read.specs.Files.{IsFirstLineOf, IsFirstFault};

use crate::fault::FileFault;
use ft_lines::Fault;
use ft_lines::cursor::Cursor;
use ft_lines::laws::numbers;

/// Goes on where the line is the first one of version 1.
pub fn check_first(line: &[u8]) -> Result<(), FileFault>
    ensures ok { OnOk result (line.now ≡ first_line) }
    ensures fault { IfErr result (λ f. IsFirstFault line.now f) }
{
    match version_of(line) {
        Ok(1) => Ok(()),
        Ok(_) => Err(FileFault::Version(1)),
        Err(Fault::Form) => Err(FileFault::Form(1)),
        Err(Fault::Memory) => Err(FileFault::Memory),
    }
}

// The version of which the line is the first one, or `Form` where it is that of none.
fn version_of(line: &[u8]) -> Result<u64, Fault>
    ensures version { IfOk result (λ v. IsFirstLineOf v line.now) }
    ensures form { IsErrOf result Form → (v : ℕ) → IsFirstLineOf v line.now → ⊥ }
{
    match line.strip_prefix(b"andromeda derivation ".as_slice()) {
        Some(rest) => whole_number(rest),
        None => Err(Fault::Form),
    }
}

// The number that is the whole text, or `Form` where the text is none.
fn whole_number(text: &[u8]) -> Result<u64, Fault>
    ensures number { IfOk result (λ n. NumberFits n × (text.now ≡ decimal n)) }
    ensures form { IsErrOf result Form → (n : ℕ) → NumberFits n → text.now ≡ decimal n → ⊥ }
{
    numbers();
    let mut rest = Cursor::new(text);
    let number = rest.number()?;
    if rest.left() > 0 {
        return Err(Fault::Form);
    }
    Ok(number)
}
