// Texts that grow at their end.
ghost use Rattle.std.specs.Prelude.{◌≡◌, ◌++◌, IfOk, IfSome, OnOk, MatchOption};
ghost use Rattle.model.specs.Refusals.{refused};
ghost use Rattle.listings.specs.Listings.{with_field, with_line, refusal_text};

use model::refusal::Fault;
use std::alloc::{AllocError, Global};
use std::fmt::Display;

// More bytes at the end.
pub fn put(out: &mut Vec<u8>, bytes: &[u8]) -> Result<(), AllocError>
    ensures { OnOk result (out.new.items ≡ out.old.items ++ bytes.now) }
{
    out.extend_from_slice(bytes)
}

// A number in base ten at the end, in the figures that its type displays.
pub fn put_number<N: Display + Copy>(out: &mut Vec<u8>, number: N) -> Result<(), AllocError>
    ensures { OnOk result (IfSome (N.output number) (λ figures. out.new.items ≡ out.old.items ++ figures)) }
{
    let figures = number.to_string(*out.allocator())?;
    put(out, figures.as_bytes())
}

// A name and then a number at the end.
pub fn put_field<N: Display + Copy>(
    out: &mut Vec<u8>,
    name: &[u8],
    number: N,
) -> Result<(), AllocError>
    ensures { OnOk result (IfSome (N.output number) (λ figures. out.new.items ≡ with_field out.old.items name.now figures)) }
{
    put(out, name)?;
    put_number(out, number)
}

// A name, a number and the end of the line.
pub fn put_line<N: Display + Copy>(
    out: &mut Vec<u8>,
    name: &[u8],
    number: N,
) -> Result<(), AllocError>
    ensures { OnOk result (IfSome (N.output number) (λ figures. out.new.items ≡ with_line out.old.items name.now figures)) }
{
    put_field(out, name, number)?;
    put(out, b"\n")
}

// The same of a number that may be absent, which a word stands for then.
pub fn put_line_or<N: Display + Copy>(
    out: &mut Vec<u8>,
    name: &[u8],
    number: Option<N>,
    absent: &[u8],
) -> Result<(), AllocError>
    ensures { OnOk result (MatchOption number (out.new.items ≡ with_line out.old.items name.now absent.now) (λ n. IfSome (N.output n) (λ figures. out.new.items ≡ with_line out.old.items name.now figures))) }
{
    match number {
        Some(number) => put_line(out, name, number),
        None => {
            put(out, name)?;
            put(out, absent)?;
            put(out, b"\n")
        },
    }
}

// The one line that a refusal is.
pub fn fault_text(heap: Global, fault: &Fault) -> Result<Vec<u8>, AllocError>
    ensures { IfOk result (λ v. v.items ≡ refusal_text (refused fault.now)) }
{
    let mut out = Vec::new(heap);
    put_field(&mut out, b"refused ", fault.refusal.number())?;
    put_field(&mut out, b" layer ", fault.layer.number())?;
    put_line(&mut out, b" place ", fault.place)?;
    Ok(out)
}
