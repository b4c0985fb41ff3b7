/// A site of the network: its number and its call sign. Its place is its position in the file, counted from 0.
#[derive(Debug, Clone, Copy)]
pub struct Site {
    pub number: u16,
    pub call_sign: [u8; 6],
}
