// How many fields the cells of each constructor get: cells of different constructors get different numbers.
ghost use Rattle.std.specs.Prelude.{◌≡◌, ◌<◌, IfSome, IfOk, OnOk, length, slice_index_or, replicate, false};
ghost use Rattle.script_formulas.specs.Translating.{AreGiven, AreToldApart};

use crate::Constructor;
use crate::cases::{Refused, Unsupported};
use crate::goals::reached::Reached;
use std::alloc::Global;

/// The least free number of fields, from this one on.
fn free_width(taken: &[bool; 9], least: usize) -> Option<u8>
    ensures { IfSome result (λ width. (0 < width) × (width < 9) × (slice_index_or taken.now width false ≡ false)) }
{
    for width in 1..9 {
        if width >= least && !taken[width] {
            return Some(width as u8);
        }
    }
    None
}

/// Gives a number of fields to each used constructor that has so many.
fn give_widths(
    widths: &mut [u8],
    taken: &mut [bool; 9],
    constructors: &[Constructor],
    reached: &Reached,
    fields: usize,
) -> Result<(), Refused>
    requires { AreGiven widths.old taken.old }
    ensures { OnOk result (AreGiven widths.new taken.new) }
{
    for (number, constructor) in constructors.iter().enumerate() {
        let is_wanted = reached.has_constructor(number) && constructor.fields.len() == fields;
        if is_wanted && number < widths.len() {
            let Some(width) = free_width(taken, fields) else {
                return Err(Refused::Unsupported(Unsupported::Fields));
            };
            taken[width as usize] = true;
            widths[number] = width;
        }
    }
    Ok(())
}

fn no_widths(alloc: Global, count: usize) -> Result<Vec<u8>, Refused>
    ensures { IfOk result (λ widths. widths.items ≡ replicate count 0) }
{
    let mut widths = Vec::new(alloc);
    for _ in 0..count {
        widths.push(0)?;
    }
    Ok(widths)
}

/// The numbers of fields of the constructors' cells: 0 for those that are not used. Constructors with few fields come
/// first.
pub fn widths_of(
    alloc: Global,
    constructors: &[Constructor],
    reached: &Reached,
) -> Result<Vec<u8>, Refused>
    ensures { IfOk result (λ widths. AreToldApart widths.items) }
{
    let mut widths = no_widths(alloc, constructors.len())?;
    let mut taken = [false; 9];
    for fields in 0..9 {
        give_widths(&mut widths, &mut taken, constructors, reached, fields)?;
    }
    Ok(widths)
}
