//! Lines that are made of numbers.

use std::test::Fail;

// Adds the number with at least `width` digits.
fn add_number(text: &mut String, number: u64, width: u64) -> Result<(), Fail> {
    let mut least = 10u64;
    for _ in 1..width {
        if number < least {
            text.push_str("0")?;
        }
        least = least.saturating_mul(10);
    }
    write!(text, "{number}")?;
    Ok(())
}

/// Adds the form, in which each run of `#` stands for the next of the numbers, with as many digits at least. A form ends
/// with a line feed.
pub(crate) fn add_line(text: &mut String, form: &str, numbers: &[u64]) -> Result<(), Fail> {
    let mut numbers = numbers.iter();
    let mut width = 0u64;
    for letter in form.chars() {
        if letter == '#' {
            width = width.saturating_add(1);
            continue;
        }
        if width > 0 {
            add_number(text, *numbers.next().unwrap_or(&0), width)?;
            width = 0;
        }
        text.push(letter)?;
    }
    Ok(())
}
