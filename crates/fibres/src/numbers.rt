// Rows of numbers in a text.
use crate::misread::Misread;
use std::str::FromStr;

// A number for each place of a row, and neither more nor fewer.
pub(crate) fn read_row<T: FromStr>(text: &str, row: &mut [T]) -> Result<(), Misread>
where
    T: Drop,
    T::Err: Drop,
{
    read_each(text, row, |place, number| *place = number)
}

// The same, where each number is put into a part of its place. The row is written in place, since a row that is
// refused keeps the numbers in front of the fault.
pub(crate) fn read_each<P, T: FromStr, F: Fn(&mut P, T)>(
    text: &str,
    row: &mut [P],
    put: F,
) -> Result<(), Misread>
where
    T: Drop,
    T::Err: Drop,
    F: Drop,
    requires { F.IsAlwaysCallable put }
{
    let mut words = text.split_whitespace();
    for place in row.iter_mut() {
        let word = words.next().ok_or(Misread)?;
        put(place, word.parse().map_err(|_| Misread)?);
    }
    match words.next() {
        Some(_) => Err(Misread),
        None => Ok(()),
    }
}
