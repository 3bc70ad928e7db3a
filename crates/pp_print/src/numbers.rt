//! Integers and variables.
ghost use Rattle.std.specs.Prelude.{◌≡◌, ◌++◌, OnOk, decimal};
ghost use Rattle.std.specs.Fmt.{signed_decimal};
ghost use Rattle.pp_language.specs.Printing.{variable_text};

use itoa::Buffer;
use std::alloc::AllocError;

/// Appends a natural number.
pub(crate) fn write_natural(out: &mut Vec<u8>, number: u64) -> Result<(), AllocError>
    ensures { OnOk result (out.new.items ≡ out.old.items ++ decimal number) }
{
    let mut digits = Buffer::new();
    out.extend_from_slice(digits.format(number).as_bytes())
}

/// Appends an integer.
pub(crate) fn write_integer(out: &mut Vec<u8>, value: i64) -> Result<(), AllocError>
    ensures { OnOk result (out.new.items ≡ out.old.items ++ signed_decimal value) }
{
    let mut digits = Buffer::new();
    out.extend_from_slice(digits.format(value).as_bytes())
}

/// Appends the variable of this number.
pub(crate) fn write_variable(out: &mut Vec<u8>, variable: u64) -> Result<(), AllocError>
    ensures { OnOk result (out.new.items ≡ out.old.items ++ variable_text variable) }
{
    out.push(b'_')?;
    write_natural(out, variable)
}
