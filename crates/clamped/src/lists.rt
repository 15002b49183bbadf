// Lists that may be read and written at any place. What isn't there counts as 0, and isn't written.
use crate::numbers::sum;

/// The number at a place; 0 where there is none.
pub fn number_at(list: &[i64], place: usize) -> i64 {
    match list.get(place) {
        Some(x) => *x,
        None => 0,
    }
}

/// Puts a number at a place, where there is one.
pub fn put_number(list: &mut [i64], place: usize, x: i64) {
    if let Some(at) = list.get_mut(place) {
        *at = x;
    }
}

/// Adds to the number at a place, where there is one.
pub fn add_number(list: &mut [i64], place: usize, by: i64) {
    if let Some(at) = list.get_mut(place) {
        *at = sum(*at, by);
    }
}

/// The index at a place; 0 where there is none.
pub fn index_at(list: &[u32], place: usize) -> u32 {
    match list.get(place) {
        Some(x) => *x,
        None => 0,
    }
}

/// A place as an index; the greatest index where it is greater.
pub fn index_of(place: usize) -> u32 {
    match u32::try_from(place) {
        Ok(index) => index,
        Err(_) => u32::MAX,
    }
}

/// Puts an index at a place, where there is one.
pub fn put_index(list: &mut [u32], place: usize, x: u32) {
    if let Some(at) = list.get_mut(place) {
        *at = x;
    }
}

/// The flag at a place; `false` where there is none.
pub fn flag_at(list: &[bool], place: usize) -> bool {
    match list.get(place) {
        Some(x) => *x,
        None => false,
    }
}

/// Puts a flag at a place, where there is one.
pub fn put_flag(list: &mut [bool], place: usize, x: bool) {
    if let Some(at) = list.get_mut(place) {
        *at = x;
    }
}
