//! The adders of a generated text.
ghost use Rattle.std.specs.Prelude.{◌≡◌, ◌<◌, ◌≤◌, ◌++◌, OnOk, decimal};
ghost use Rattle.pp_language.specs.Answers.{line, lines};
ghost use Rattle.pp_language.specs.Generator.{next_number, bit_of, numbered_name, adder_lines};
ghost use Rattle.pp_make.specs.Adders.{values_text, inputs_text, outputs_text, adder_text};

use itoa::Buffer;
use std::alloc::AllocError;

/// The number after x of a linear congruential generator.
fn next_number(x: u64) -> u64
    requires { x < 2147483648 }
    ensures number { result ≡ next_number x }
    ensures small { result < 2147483648 }
{
    (x * 1_103_515_245 + 12_345) % 2_147_483_648
}

/// The bit that a number gives.
fn bit_of(x: u64) -> u64
    ensures { result ≡ bit_of x }
{
    (x / 65_536) % 2
}

/// Appends a name with a number behind it.
fn push_numbered(out: &mut Vec<u8>, name: &[u8], number: u64) -> Result<(), AllocError>
    ensures { OnOk result (out.new.items ≡ out.old.items ++ numbered_name name.now number) }
{
    let mut digits = Buffer::new();
    out.extend_from_slice(name)?;
    out.extend_from_slice(digits.format(number).as_bytes())
}

/// Appends the equations of the adder at this place: its first input and its sum.
fn push_values(out: &mut Vec<u8>, place: u64, input: u64, sum: u64) -> Result<(), AllocError>
    ensures { OnOk result (out.new.items ≡ out.old.items ++ values_text place input sum) }
{
    push_numbered(out, b"A", place)?;
    push_numbered(out, b" = ", input)?;
    push_numbered(out, b", S", place)?;
    push_numbered(out, b" = ", sum)
}

/// Appends the beginning of the goal of the adder at this place.
fn push_inputs(out: &mut Vec<u8>, place: u64) -> Result<(), AllocError>
    ensures { OnOk result (out.new.items ≡ out.old.items ++ inputs_text place) }
{
    push_numbered(out, b", add(A", place)?;
    push_numbered(out, b",B", place)?;
    push_numbered(out, b",C", place)
}

/// Appends the rest of the goal.
fn push_outputs(out: &mut Vec<u8>, place: u64) -> Result<(), AllocError>
    requires { place < 2147483648 }
    ensures { OnOk result (out.new.items ≡ out.old.items ++ outputs_text place) }
{
    push_numbered(out, b",S", place)?;
    push_numbered(out, b",C", place + 1)?;
    out.extend_from_slice(b") infers most,")?;
    Ok(())
}

/// Appends the line of the adder at this place.
fn push_adder(out: &mut Vec<u8>, place: u64, input: u64, sum: u64) -> Result<(), AllocError>
    requires { place < 2147483648 }
    ensures { OnOk result (out.new.items ≡ out.old.items ++ line (adder_text place input sum)) }
{
    push_values(out, place, input, sum)?;
    push_inputs(out, place)?;
    push_outputs(out, place)?;
    out.push(b'\n')?;
    Ok(())
}

/// Appends the lines of so many adders, whose bits begin with that number.
pub(crate) fn push_adders(out: &mut Vec<u8>, number: u32) -> Result<(), AllocError>
    requires { number < 2147483648 }
    ensures { OnOk result (out.new.items ≡ out.old.items ++ lines (adder_lines number number)) }
{
    let mut last = u64::from(number);
    for before in 0..u64::from(number) {
        let input = next_number(last);
        let sum = next_number(input);
        push_adder(out, before + 1, bit_of(input), bit_of(sum))?;
        last = sum;
    }
    Ok(())
}
