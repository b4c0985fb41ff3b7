use network::Line;

/// Marks on the lines of a network, which are said to carry `value` from place `a` to place `b`. Any numbers may stand in
/// it: whether the marks do carry so is asked before routes are taken.
#[derive(Clone, Copy)]
pub struct Marking<'a> {
    pub sites: usize,
    pub lines: &'a [Line],
    pub marks: &'a [u8],
    pub a: usize,
    pub b: usize,
    pub value: usize,
}
