//! A curve as the data of a path (SVG 1.1, 8.3).

ghost use Rattle.std.specs.Prelude.{◌≡◌, ◌++◌, ◌<◌, decimal, IfOk, List, OnOk, Option};
ghost use Rattle.std.specs.String.{string_bytes};
ghost use Rattle.credit_chart.specs.declared.level.Level.{Level};
ghost use Rattle.credit_chart.specs.Paths.{column_text, path_text};
ghost use Rattle.credit_chart.specs.Thinned.{AreThinned};

use crate::level::Quantity;
use crate::scale::{Scale, place_of, row_of};
use crate::thinned::Thinned;
use crate::thinning::Extent;
use itoa::Buffer;
use std::alloc::{AllocError, Global};

/// The curve of a quantity over these columns, if this is the highest value: in each column a line from the lowest to the
/// highest value, and from there to the next column. Where a column has no value the curve is broken off.
pub(crate) fn path_of(
    alloc: Global,
    quantity: Quantity,
    thinned: &Thinned,
    scale: Scale,
    top: u32,
) -> Result<String, AllocError>
    requires { 0 < top }
    ensures { IfOk result (λ text. (levels : List (Option Level)) → AreThinned levels thinned.now → scale.span ≡ thinned.now.span →
        string_bytes text ≡ path_text quantity levels scale top scale.count) }
{
    let mut text = String::new(alloc);
    let mut is_down = false;
    for column in 0..scale.count {
        let extent = thinned.extent(quantity, column);
        put_column(&mut text, quantity, scale, top, is_down, column, extent)?;
        is_down = extent.is_some();
    }
    Ok(text)
}

/// Appends what is drawn in a column, where the curve comes from the one before, or begins.
fn put_column(
    text: &mut String,
    quantity: Quantity,
    scale: Scale,
    top: u32,
    is_down: bool,
    column: usize,
    extent: Option<Extent>,
) -> Result<(), AllocError>
    requires { 0 < top }
    ensures { OnOk result (string_bytes text.new ≡ string_bytes text.old ++ column_text quantity scale top is_down column extent) }
{
    let Some(Extent { low, high }) = extent else {
        return Ok(());
    };
    let low = row_of(quantity, top, low);
    if !is_down {
        put(text, "M", place_of(scale, column))?;
        put(text, " ", low)?;
    }
    put(text, "V", low)?;
    put(text, "V", row_of(quantity, top, high))?;
    put(text, "H", place_of(scale, column.saturating_add(1)))
}

/// Appends a letter and a number.
fn put(text: &mut String, letter: &str, number: u32) -> Result<(), AllocError>
    ensures { OnOk result (string_bytes text.new ≡ string_bytes text.old ++ (letter.now ++ decimal number)) }
{
    let mut digits = Buffer::new();
    text.push_str(letter)?;
    text.push_str(digits.format(number))
}
