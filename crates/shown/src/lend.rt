// The middle of a larger room or table: `size` of it from the second on, so that one before and those behind must stay.
// A size that does not fit gives the whole.
pub fn middle<T>(room: &mut [T], size: usize) -> &mut [T] {
    if size < room.len() {
        &mut room[1..=size]
    } else {
        room
    }
}
