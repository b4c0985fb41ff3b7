// The numbers that all rows show stand in one table: a list of its own in each row would allocate in a booking.
/// A standing booking: its number, how many lines it holds, and how many numbers it shows.
#[derive(Clone, Copy)]
pub struct Standing {
    pub number: u16,
    pub held: usize,
    pub length: usize,
}
