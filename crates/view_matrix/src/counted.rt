//! What is counted of columns, by a pass over their words.

ghost use Rattle.std.specs.Prelude.{◌≡◌, ◌&&◌, length, count_by};
ghost use Rattle.std.specs.List.{range_with_len};
ghost use Rattle.view_matrix.specs.Columns.{at};
ghost use Rattle.view_matrix.specs.Matrices.{differ};

use crate::column::Column;

/// How many bits are set in both columns.
pub(crate) fn count_both(first: &Column, second: &Column) -> u64
    requires { length first.now ≡ length second.now }
    ensures { result ≡ count_by (λ e. at first.now e && at second.now e) (range_with_len 0 (length first.now)) }
{
    let first_words = first.words();
    let second_words = second.words();
    let mut count = 0;
    for k in 0..first_words.len() {
        let word = first_words[k] & second_words[k];
        count += u64::from(word.count_ones());
    }
    count
}

/// In how many of these places the other two columns differ.
pub(crate) fn count_apart(places: &Column, first: &Column, second: &Column) -> u64
    requires first { length places.now ≡ length first.now }
    requires second { length places.now ≡ length second.now }
    ensures { result ≡ count_by (λ e. at places.now e && differ (at first.now e) (at second.now e)) (range_with_len 0 (length places.now)) }
{
    let words = places.words();
    let first_words = first.words();
    let second_words = second.words();
    let mut count = 0;
    for k in 0..words.len() {
        let word = words[k] & (first_words[k] ^ second_words[k]);
        count += u64::from(word.count_ones());
    }
    count
}
